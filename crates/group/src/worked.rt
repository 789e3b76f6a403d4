// What the promise of `starts_unwired` suffices for: tag 0 alone begins with tag 0, from the promise alone.
ghost use Rattle.std.specs.Prelude.{◌≡◌, true};

use crate::starts_unwired;

// "17 if the first tag is 0": the list {0}.
pub fn zero_alone() -> bool
    ensures answer { result ≡ true }
{
    let tags = [0u32];
    starts_unwired(&tags)
}
