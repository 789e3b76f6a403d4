// What the promise of `build_from_text` suffices for, from the promise alone.
ghost use Rattle.std.specs.Prelude.{◌≡◌};
ghost use Rattle.refusal.specs.Outcome.{refused};
ghost use Rattle.refusal.specs.Answer.{outcome};
ghost use Rattle.from_text.specs.Condition3.{OfList};
ghost use Rattle.tagless_building.specs.WrittenChecked.{WrittenChecked};

use crate::build_from_text;
use refusal::Refusal;

// A text of no bytes is refused with 16 at place 0, and the buffer stays as it is.
pub fn build_from_nothing(buffer: &mut [u8]) -> Result<usize, Refusal>
    ensures answer { outcome result ≡ refused 16 0 }
    ensures kept { buffer.new ≡ buffer.old }
{
    build_from_text(b"", buffer)
}

// Whatever is built from a text that states a list, checking accepts.
pub fn build_to_look_up(text: &[u8], buffer: &mut [u8]) -> Result<usize, Refusal>
    ensures checked { OfList text.now (λ listed. WrittenChecked (outcome result) buffer.new) }
{
    build_from_text(text, buffer)
}
