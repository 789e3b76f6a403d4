// What the promise of the call suffices for, from the promise alone.
ghost use Rattle.std.specs.Prelude.{◌≡◌, ◌↔◌, true};
ghost use Rattle.strict_condition.specs.Condition.{Ours};

use crate::strict_check;

// No bytes are refused with 11 at place 0;
pub fn strictly_check_nothing() -> u64
    ensures answer { result ≡ 47244640256 }
{
    strict_check(b"")
}

// an image is answered with 0 exactly if building writes it, for some list, B and L.
pub fn is_ours(image: &[u8]) -> bool
    ensures answer { (result ≡ true) ↔ Ours image.now }
{
    strict_check(image) == 0
}
