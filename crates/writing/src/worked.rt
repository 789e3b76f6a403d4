// What the promise of `write_list` suffices for, from the promise alone.
ghost use Rattle.std.specs.Prelude.{◌≡◌};
ghost use Rattle.refusal.specs.Outcome.{refused};
ghost use Rattle.refusal.specs.Answer.{outcome};

use crate::write_list;
use refusal::Refusal;

// Under the plan of a refused planning every list is refused with 8 at place 0, and the buffer stays as it is.
pub fn write_under_no_plan(tags: &[u32], buffer: &mut [u8]) -> Result<usize, Refusal>
    ensures answer { outcome result ≡ refused 8 0 }
    ensures kept { buffer.new ≡ buffer.old }
{
    let plan = [0u32; refusal::PLAN_CELLS];
    write_list(tags, &plan, buffer)
}
