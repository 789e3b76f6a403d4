// What the promise of `word_groups` suffices for: the word of one small group as the only one of an index, from the promise alone.
ghost use Rattle.std.specs.Prelude.{◌≡◌};

use crate::word_groups;

// The word of the tags 1 and 3 below L = 2.
pub fn word_of_one_and_three() -> u32
    ensures answer { result ≡ 1 }
{
    let ordered = [1u32, 3];
    let ends = [2usize];
    let mut seeds = [0u32; refusal::GROUP_CELLS];
    let mut words = [0u32; refusal::GROUP_CELLS];
    word_groups(&ordered, &ends, 1, 2, &mut seeds, &mut words);
    words[0]
}
