// What the promise of `place_of_one_tag` suffices for: worked value 3, from the promise alone.
ghost use Rattle.std.specs.Prelude.{◌≡◌};

use crate::place_of_one_tag;

// "3 has 0 and 1": the second place of tag 3 in a group of two under seed 1.
pub fn second_place_of_three() -> u32
    ensures answer { result ≡ 1 }
{
    match place_of_one_tag(2, 1, 1, 3) {
        Ok(place) => place,
        Err(_) => 0,
    }
}
