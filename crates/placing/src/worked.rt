// What the promise of `place_group` suffices for: worked value 3, from the promise alone.
ghost use Rattle.std.specs.Prelude.{◌≡◌};

use crate::place_group;

// "{1, 3}, L = 2: seed 1; … word 2", as ten times the seed and the word.
pub fn placement_of_one_and_three() -> u32
    ensures answer { result ≡ 12 }
{
    let tags = [1u32, 3];
    let Ok(placed) = place_group(&tags, 2) else {
        return 0;
    };
    10 * placed.seed + placed.word
}
