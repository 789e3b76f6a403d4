// What the promise of `choices_taken` suffices for: the sequence taken for keys that two sequences fill, from the promise alone.
ghost use Rattle.std.specs.Prelude.{◌≡◌};

use crate::choices_taken;

// Of two keys with the places 0 and 1 each, the sequences 0, 1 and 1, 0 fill. The first is taken, though its word is 2 and
// the other's is 1.
pub fn word_of_two_fillings() -> u32
    ensures answer { result ≡ 2 }
{
    let mut places = [0u32; places::PLACE_CELLS];
    places[refusal::MEMBER_CELLS] = 1;
    places[refusal::MEMBER_CELLS + 1] = 1;
    match choices_taken(&places, 2) {
        Some(word) => word,
        None => 0,
    }
}
