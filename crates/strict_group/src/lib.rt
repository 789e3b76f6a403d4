// One group of the strict check: its tags are sorted and placed anew, and what they are given is compared.
#![tactic(auto)]

ghost use Rattle.std.specs.Prelude.{◌≡◌, not, length};
ghost use Rattle.sorting.specs.Sorted.{sorted};
ghost use Rattle.group.specs.Group.{taken};
ghost use Rattle.numbering.specs.GroupSlots.{group_slots};
ghost use Rattle.arrange.specs.Arrange.{Arrangeable};
ghost use Rattle.strict.specs.Same.{same};
ghost use Rattle.strict.specs.AsBuilt.{differs};
ghost use Rattle.strict.specs.Servable.{Servable};

use refusal::{LIMIT_MAX, MEMBER_CELLS};

// Whether the seed or the slots of one group differ from what building gives its tags.
pub fn differs(slots: &[u32], seed: u32) -> bool
    requires { Servable seed slots.now }
    ensures answer { result ≡ differs seed slots.now }
{
    // No tags are given seed 0.
    if slots.len() == 0 {
        return seed != 0;
    }
    let mut tags = [0u32; MEMBER_CELLS];
    sorting::sort_into(slots, &mut tags);
    placed_otherwise(&tags[..slots.len()], seed, slots)
}

// The same, given the tags of the slots in ascending order: they are placed anew, by the search through all seeds, and compared.
fn placed_otherwise(tags: &[u32], seed: u32, slots: &[u32]) -> bool
    requires servable { Servable seed slots.now }
    requires tags_value { tags.now ≡ sorted slots.now }
    ensures answer { result ≡ differs seed slots.now }
{
    let Ok(placed) = placing::place_group(tags, LIMIT_MAX) else {
        // Some seed serves the group, the one that the image states, so this case does not come.
        return true;
    };
    if placed.seed != seed {
        return true;
    }
    let mut given = [0u32; MEMBER_CELLS];
    slots_differ(tags, seed, placed.word, slots, &mut given[..tags.len()])
}

// Whether the slots differ from those that a group's tags have under this seed and word; there is a cell for each of them.
fn slots_differ(tags: &[u32], seed: u32, word: u32, slots: &[u32], given: &mut [u32]) -> bool
    requires { Arrangeable tags.now seed word (length given.old) }
    ensures answer { result ≡ not (same slots.now
        (group_slots tags.now seed (taken tags.now seed))) }
{
    arrange::arrange_group(tags, seed, word, given);
    !same(slots, given)
}

// Are two lists the same?
fn same(xs: &[u32], ys: &[u32]) -> bool
    ensures answer { result ≡ same xs.now ys.now }
{
    xs == ys
}
