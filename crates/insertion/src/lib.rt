// Weighted insertion: a key goes in with either choice, occupants are evicted to their other places, and the lighter word stays.
#![tactic(auto)]

ghost use Rattle.std.specs.Prelude.{◌≡◌, true, false, ◌+◌, ◌*◌, ◌-◌, ◌^◌, ◌≤◌, ◌<◌, length, Some, option_map};
ghost use Rattle.refusal.specs.Limits.{group_max};
ghost use Rattle.filling.specs.Taken.{sequence_taken};
ghost use Rattle.filling.specs.Word.{word_of};
ghost use Rattle.filling.specs.Weight.{key_weight};
ghost use Rattle.filling.specs.Separate.{Separate};
ghost use Rattle.filling.specs.Insertion.{Lightest};
ghost use Rattle.bits.specs.WordBits.{choice_in};
ghost use Rattle.places.specs.Array.{entry_of, Candidates, keys_of};
ghost use Rattle.insertion.specs.Occupants.{place_taken, occupants_of, occupants_after, Occupied};
ghost use Rattle.insertion.specs.Inserted.{InsertedIs};

use bits::{choice_at, toggled};
use refusal::MEMBER_CELLS;
use weight::lighter;

// The word of the sequence taken with key k, from that without it and the occupants under that: for each place 0, or one more than
// the index of the key that has it. The cells become those under the word answered, and stay where there is none.
pub fn with_key(
    places: &[u32],
    word: u32,
    k: u32,
    occupants: &mut [u32; MEMBER_CELLS],
) -> Option<u32>
    requires k_lt_group_max { (k < group_max) × Candidates places.now (k + 1)
        × (Some word ≡ option_map word_of (sequence_taken (keys_of k places.now))) }
    requires occupants_value { occupants.old ≡ occupants_of places.now word k }
    ensures answer { result ≡ option_map word_of (sequence_taken (keys_of (k + 1) places.now)) }
    ensures cells { occupants.new ≡ occupants_after places.now k occupants.old result }
{
    let first = places[k as usize] as usize;
    let occupant = occupants[first];
    if occupant == 0 {
        occupants[first] = k + 1;
        return Some(word);
    }
    // A key at its own first place weighs more at its second than key k does. One at its second place may move on for less.
    if choice_at(word, occupant - 1) == 0 {
        let second = places[MEMBER_CELLS + k as usize] as usize;
        if occupants[second] == 0 {
            occupants[second] = k + 1;
            return Some(bits::with_bit(word, k));
        }
    }
    let next = evicting(places, word, k, occupants)?;
    occupy(places, next, k + 1, occupants);
    Some(next)
}

// The lighter of the results of inserting key k with choice 0 and with choice 1.
fn evicting(places: &[u32], word: u32, k: u32, occupants: &[u32]) -> Option<u32>
    requires k_lt_group_max { (k < group_max) × Candidates places.now (k + 1)
        × (Some word ≡ option_map word_of (sequence_taken (keys_of k places.now))) }
    requires occupants_value { occupants.now ≡ occupants_of places.now word k }
    ensures answer { result ≡ option_map word_of (sequence_taken (keys_of (k + 1) places.now)) }
{
    let Some(a) = insert(places, word, k, occupants) else {
        return insert(places, bits::with_bit(word, k), k, occupants);
    };
    let Some(b) = insert(places, bits::with_bit(word, k), k, occupants) else {
        return Some(a);
    };
    Some(lighter(a, b, k + 1))
}

// Inserts key k with the choice that the word has for it, by at most k evictions. The cells are those of the word, and stay.
fn insert(places: &[u32], word: u32, k: u32, occupants: &[u32]) -> Option<u32>
    requires k_lt_group_max { (k < group_max) × Candidates places.now (k + 1) × (word < 2 ^ (k + 1)) }
    requires lightest { Lightest (entry_of places.now) key_weight k (choice_in word) × Occupied places.now word k occupants.now }
    ensures answer { InsertedIs places.now k word result }
{
    let mut choices = word;
    // The place that the displaced key goes to, key k at first.
    let mut place = place_taken(places, word, k);
    let mut evictions = k;
    loop {
        let occupant = occupants[place as usize];
        if occupant == 0 {
            return Some(choices);
        }
        let o = occupant - 1;
        // Where o has moved already, the place is the one that it left: nothing separates the keys.
        if choice_at(choices, o) != choice_at(word, o) {
            return None;
        }
        if evictions == 0 {
            return None;
        }
        choices = toggled(choices, o);
        place = other_place(places, o, place);
        evictions -= 1;
    }
}

// The candidate place of key i that is not this one of its two.
fn other_place(places: &[u32], i: u32, place: u32) -> u32
    requires i_lt_group_max { (i < group_max) × Candidates places.now (i + 1) }
    requires place_bound { place ≤ entry_of places.now i false + entry_of places.now i true }
    ensures answer { result ≡ entry_of places.now i false + entry_of places.now i true - place }
{
    places[i as usize] + places[MEMBER_CELLS + i as usize] - place
}

// The occupants of the first `count` keys under a word.
fn occupy(places: &[u32], word: u32, count: u32, occupants: &mut [u32; MEMBER_CELLS])
    requires count_le_group_max { (count ≤ group_max) × Candidates places.now count × (length occupants.old ≡ group_max) }
    requires separate { Separate (entry_of places.now) count (choice_in word) }
    ensures cells { occupants.new ≡ occupants_of places.now word count }
{
    *occupants = [0; MEMBER_CELLS];
    for i in 0..count {
        let place = place_taken(places, word, i) as usize;
        occupants[place] = i + 1;
    }
}

// The place that key i takes under the word's choice.
fn place_taken(places: &[u32], word: u32, i: u32) -> u32
    requires { (i < group_max) × (length places.now ≡ 2 * group_max) }
    ensures answer { result ≡ place_taken places.now word i }
{
    if choice_at(word, i) == 1 {
        places[MEMBER_CELLS + i as usize]
    } else {
        places[i as usize]
    }
}
