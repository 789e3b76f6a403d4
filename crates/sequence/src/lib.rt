// The choice sequence taken for keys with two candidate places each.
#![tactic(auto)]

mod worked;

ghost use Rattle.std.specs.Prelude.{◌≡◌, ◌≤◌, option_map};
ghost use Rattle.refusal.specs.Limits.{group_max};
ghost use Rattle.filling.specs.Taken.{sequence_taken};
ghost use Rattle.filling.specs.Word.{word_of};
ghost use Rattle.places.specs.Array.{Candidates, keys_of};

// The choice sequence taken for `count` keys, by weighted insertion: key after key goes in, and the word stays the lightest.
// Entry i of `places` is the first place of key i, entry MEMBER_CELLS + i its second.
pub fn choices_taken(places: &[u32], count: u32) -> Option<u32>
    requires { (count ≤ group_max) × Candidates places.now count }
    ensures answer { result ≡ option_map word_of (sequence_taken (keys_of count places.now)) }
{
    let mut occupants = [0u32; refusal::MEMBER_CELLS];
    let mut word: u32 = 0;
    for k in 0..count {
        word = insertion::with_key(places, word, k, &mut occupants)?;
    }
    Some(word)
}
