// What the promise of `least_worded_seed` suffices for: the word of one small group, from the promise alone.
ghost use Rattle.std.specs.Prelude.{◌≡◌};

use crate::least_worded_seed;

// The word of the tags 1 and 3 below L = 2.
pub fn word_of_one_and_three() -> u32
    ensures answer { result ≡ 1 }
{
    match least_worded_seed(&[1, 3], 2) {
        Some((_, word)) => word,
        None => 0,
    }
}
