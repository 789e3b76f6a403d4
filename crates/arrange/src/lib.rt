// A group's tags put in the order of their places, and the slots of all groups one group's after the other's.
#![tactic(auto)]

ghost use Rattle.std.specs.Prelude.{◌≡◌, cond, ◌<◌, length, unwrap_or};
ghost use Rattle.lists.specs.First.{first};
ghost use Rattle.group.specs.Group.{taken};
ghost use Rattle.bits.specs.WordBits.{choice_in};
ghost use Rattle.numbering.specs.GroupSlots.{group_slots};
ghost use Rattle.arrange.specs.Arrange.{Arrangeable, AllArrangeable, unfilled_part, slots_into};

// Writes the slots of all groups, one group's after the other's, and stops at the lowest group that no sequence fills under its seed;
// the cells after them stay. Part g of the tags, in the order of the groups, ends at `ends[g]`, and its seed is `seeds[g]`.
pub fn arrange(
    ordered: &[u32],
    ends: &[usize],
    seeds: &[u32],
    groups: usize,
    slots: &mut [u32],
) -> Option<usize>
    requires { AllArrangeable groups ordered.now ends.now seeds.now (length slots.old) }
    ensures answer { result ≡ first (unfilled_part ordered.now ends.now seeds.now) groups }
    ensures cells { slots.new ≡ slots_into ordered.now ends.now seeds.now
        (unwrap_or result groups) slots.old }
{
    let mut start = 0;
    for g in 0..groups {
        let end = ends[g];
        let seed = seeds[g];
        let Some(word) = word::word_under(&ordered[start..end], seed) else {
            return Some(g);
        };
        arrange_group(&ordered[start..end], seed, word, &mut slots[start..end]);
        start = end;
    }
    None
}

// Writes the slots of one group: each tag into the cell of its place, under the seed and the word of the sequence taken.
pub fn arrange_group(part: &[u32], seed: u32, word: u32, cells: &mut [u32])
    requires { Arrangeable part.now seed word (length cells.old) }
    ensures cells { cells.new ≡ group_slots part.now seed (taken part.now seed) }
{
    let n = part.len() as u32;
    let first = hash::multiplier(seed, 0);
    let second = hash::multiplier(seed, 1);
    for i in 0..n {
        let tag = part[i as usize];
        let place = hash::hashed(multiplier_at(word, i, first, second), n, tag);
        cells[place as usize] = tag;
    }
}

// The multiplier of the choice that the word has for the tag with index i.
fn multiplier_at(word: u32, i: u32, first: u32, second: u32) -> u32
    requires { i < 32 }
    ensures answer { result ≡ cond (choice_in word i) second first }
{
    if bits::choice_at(word, i) == 1 {
        second
    } else {
        first
    }
}
