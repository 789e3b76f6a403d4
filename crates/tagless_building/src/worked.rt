// What the promise of `tagless_build` suffices for, from the promise alone.
ghost use Rattle.std.specs.Prelude.{◌≡◌};
ghost use Rattle.refusal.specs.Outcome.{refused};
ghost use Rattle.refusal.specs.Answer.{outcome};
ghost use Rattle.tagless_building.specs.WrittenChecked.{WrittenChecked};

use crate::tagless_build;
use refusal::Refusal;

// With B = 0 every list is refused with 8 at place 0, and the buffer stays as it is.
pub fn build_without_groups(tags: &[u32], buffer: &mut [u8]) -> Result<usize, Refusal>
    ensures answer { outcome result ≡ refused 8 0 }
    ensures kept { buffer.new ≡ buffer.old }
{
    tagless_build(tags, 0, 1, buffer)
}

// Whatever is built in one group, checking accepts.
pub fn build_one_group(tags: &[u32], limit: u32, buffer: &mut [u8]) -> Result<usize, Refusal>
    ensures checked { WrittenChecked (outcome result) buffer.new }
{
    tagless_build(tags, 1, limit, buffer)
}
