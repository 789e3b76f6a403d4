// What the promises of `strict_check` suffice for, from the promises alone.
ghost use Rattle.std.specs.Prelude.{◌≡◌, ◌↔◌, true};
ghost use Rattle.refusal.specs.Outcome.{refused};
ghost use Rattle.checking.specs.Answer.{check_outcome};
ghost use Rattle.strict_condition.specs.Condition.{Ours};

use crate::strict_check;
use refusal::Refusal;

// No bytes are refused with 11 at place 0.
pub fn check_nothing() -> Result<(), Refusal>
    ensures answer { check_outcome result ≡ refused 11 0 }
{
    strict_check(b"")
}

// Does building write this image, for some list, B and L?
pub fn is_ours(image: &[u8]) -> bool
    ensures answer { (result ≡ true) ↔ Ours image.now }
{
    match strict_check(image) {
        Ok(()) => true,
        Err(_) => false,
    }
}
