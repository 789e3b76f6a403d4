// What the promise of `build` suffices for, from the promise alone.
ghost use Rattle.std.specs.Prelude.{◌≡◌};
ghost use Rattle.refusal.specs.Outcome.{refused};
ghost use Rattle.refusal.specs.Answer.{outcome};

use crate::build;
use refusal::Refusal;

// With B = 0 every list is refused with 8 at place 0, and the buffer stays as it is.
pub fn build_without_groups(tags: &[u32], buffer: &mut [u8]) -> Result<usize, Refusal>
    ensures answer { outcome result ≡ refused 8 0 }
    ensures kept { buffer.new ≡ buffer.old }
{
    let mut plan = [0u32; refusal::PLAN_CELLS];
    build(tags, 0, 1, &mut plan, buffer)
}
