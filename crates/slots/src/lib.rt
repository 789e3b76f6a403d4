// The slots of an image whose numbers are read into cells: the lowest that is misplaced, and the lowest that repeats a tag.
#![tactic(auto)]

ghost use Rattle.std.specs.Prelude.{◌≡◌, get_or, None};
ghost use Rattle.lists.specs.First.{first};
ghost use Rattle.image.specs.Checking.{misplaced};
ghost use Rattle.slots.specs.Cells.{cells_view, Regular, InGroup};
ghost use Rattle.slots.specs.Fault.{or_repeated, fault_at, fault_before};

use refusal::{GROUP_CELLS, TAG_CELLS};

// Cells for the start of every group, and N behind the last.
pub const START_CELLS: usize = GROUP_CELLS + 1;

// What is wrong with the slots: the lowest misplaced one, or where none is, the lowest that repeats a tag.
#[derive(Clone, Copy, Debug, PartialEq, Eq)]
pub enum SlotFault {
    Misplaced(usize),
    Repeated(usize),
}

// The fault of all slots. One walk looks for both kinds: it ends at a misplaced slot, and remembers the lowest that repeats a tag.
pub fn slot_fault(
    starts: &[u32; START_CELLS],
    seeds: &[u32; GROUP_CELLS],
    tags: &[u32; TAG_CELLS],
    groups: u32,
) -> Option<SlotFault>
    requires { Regular starts.now seeds.now groups }
    ensures answer { result ≡ fault_before (cells_view starts.now seeds.now tags.now groups)
        (get_or starts.now groups 0) }
{
    let mut fault = None;
    let mut g = 0;
    let mut j = 0;
    while g < groups as usize {
        let end = starts[g + 1] as usize;
        // To the group's end, or to a slot that repeats a tag. What is remembered is changed outside this loop, which is the hot one.
        while j < end {
            match fault_at(starts, seeds, tags, groups, g, j) {
                Some(SlotFault::Misplaced(k)) => return Some(SlotFault::Misplaced(k)),
                Some(SlotFault::Repeated(_)) => break,
                None => j += 1,
            }
        }
        if j < end {
            fault = or_repeated(fault, j);
            j += 1;
        } else {
            g += 1;
        }
    }
    fault
}

// The fault of slot j, which lies in group g, where no lower slot is misplaced. A lower slot with the tag can then only be the tag's
// other place.
fn fault_at(
    starts: &[u32; START_CELLS],
    seeds: &[u32; GROUP_CELLS],
    tags: &[u32; TAG_CELLS],
    groups: u32,
    g: usize,
    j: usize,
) -> Option<SlotFault>
    requires regular { Regular starts.now seeds.now groups }
    requires in_group { InGroup starts.now seeds.now groups g j }
    requires j_value { first (misplaced (cells_view starts.now seeds.now tags.now groups)) j ≡ None }
    ensures answer { result ≡ fault_at (cells_view starts.now seeds.now tags.now groups) j }
{
    let tag = tags[j];
    let start = starts[g];
    let size = starts[g + 1] - start;
    let first = (start + hash::place_of(size, seeds[g], 0, tag)) as usize;
    let second = (start + hash::place_of(size, seeds[g], 1, tag)) as usize;
    if hash::group_of(groups, tag) as usize != g {
        return Some(SlotFault::Misplaced(j));
    }
    // The product is 0 where the slot is one of the two. Which of them it is cannot be foretold, so there is no branch on it.
    if (first ^ j) * (second ^ j) != 0 {
        return Some(SlotFault::Misplaced(j));
    }
    let other = first + second - j;
    if tags[other] == tag {
        if other < j {
            return Some(SlotFault::Repeated(j));
        }
    }
    None
}

// The fault of the slots before slot j, or where they have none, that slot j repeats a tag.
fn or_repeated(before: Option<SlotFault>, j: usize) -> Option<SlotFault>
    ensures answer { result ≡ or_repeated before j }
{
    before.or(Some(SlotFault::Repeated(j)))
}
