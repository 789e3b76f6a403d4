// The operation "checking": whether an image is one that lookup may trust, for any bytes.
#![tactic(auto)]

ghost use Rattle.std.specs.Prelude.{◌≡◌, ◌+◌, ◌≤◌, length, None};
ghost use Rattle.refusal.specs.Limits.{tags_max, groups_max};
ghost use Rattle.refusal.specs.Outcome.{answered, refused};
ghost use Rattle.refusal.specs.Reason.{reason_number};
ghost use Rattle.lists.specs.First.{first};
ghost use Rattle.refusal.specs.Checks.{in_order};
ghost use Rattle.image.specs.View.{view_of};
ghost use Rattle.image.specs.Checking.{malformed_in, number_checks, checking_of};
ghost use Rattle.opening.specs.Opening.{opening_of, Opens};
ghost use Rattle.slots.specs.Cells.{cells_view, Legal};
ghost use Rattle.checking.specs.Answer.{check_outcome};
ghost use Rattle.checking.specs.Steps.{unwired_at, faulty_at, lines_before, GroupsStored, TagsStored, Stated};

use refusal::{GROUP_CELLS, Reason, Refusal, TAG_CELLS, UNWIRED};
use slots::{START_CELLS, SlotFault};
use text::LINE_LENGTH;

// The operation "checking".
pub fn check_image(image: &[u8]) -> Result<(), Refusal>
    ensures answer { check_outcome result ≡ checking_of image.now }
{
    let (count, groups) = opening::open(image)?;
    let mut starts = [0u32; START_CELLS];
    let mut seeds = [0u32; GROUP_CELLS];
    let mut tags = [0u32; TAG_CELLS];
    check_opened(image, count, groups, &mut starts, &mut seeds, &mut tags)
}

// Checking of an image that opens: its lines are read once, into cells, and what they state is checked there. The cells of an accepted
// image hold the numbers that it states.
pub fn check_opened(
    image: &[u8],
    count: u32,
    groups: u32,
    starts: &mut [u32; START_CELLS],
    seeds: &mut [u32; GROUP_CELLS],
    tags: &mut [u32; TAG_CELLS],
) -> Result<(), Refusal>
    requires image_value { opening_of image.now ≡ answered (count, groups) }
    requires starts_len { (length starts.old ≡ groups_max + 1) × (length seeds.old ≡ groups_max) × (length tags.old ≡ tags_max) }
    ensures answer { check_outcome result ≡ checking_of image.now }
    ensures cells { check_outcome result ≡ answered 0
        → Stated (view_of image.now) groups starts.new seeds.new tags.new }
{
    if let Some(k) = read_group_lines(image, count, groups, starts, seeds) {
        return Err(Reason::MalformedLine.at(k));
    }
    if let Some(k) = read_slot_lines(image, count, groups, tags) {
        return Err(Reason::MalformedLine.at(k));
    }
    check_cells(starts, seeds, tags, groups)
}

// The first malformed line among line 0 and the group lines. The starts and the seeds of the groups before it are stored, and N
// behind the starts.
fn read_group_lines(
    image: &[u8],
    count: u32,
    groups: u32,
    starts: &mut [u32; START_CELLS],
    seeds: &mut [u32; GROUP_CELLS],
) -> Option<usize>
    requires opens { Opens image.now count groups }
    requires starts_len { (length starts.old ≡ groups_max + 1) × (length seeds.old ≡ groups_max) }
    ensures answer { result ≡ first (malformed_in (view_of image.now)) (1 + groups) }
    ensures cells { GroupsStored (view_of image.now) count groups (lines_before result (1 + groups))
        starts.new seeds.new }
{
    starts[groups as usize] = count;
    for g in 0..groups as usize {
        let Some((start, seed)) = lines::read_group_line(image, LINE_LENGTH * (1 + g)) else {
            return Some(1 + g);
        };
        starts[g] = start;
        seeds[g] = seed;
    }
    None
}

// The first malformed line, where the lines before the slots are well formed. The tags of the slot lines before it are stored.
fn read_slot_lines(
    image: &[u8],
    count: u32,
    groups: u32,
    tags: &mut [u32; TAG_CELLS],
) -> Option<usize>
    requires opens { Opens image.now count groups }
    requires groups_value { first (malformed_in (view_of image.now)) (1 + groups) ≡ None }
    requires tags_len { length tags.old ≡ tags_max }
    ensures answer { result ≡ first (malformed_in (view_of image.now)) (1 + groups + count) }
    ensures cells { TagsStored (view_of image.now) groups (lines_before result (1 + groups + count))
        tags.new }
{
    let from = 1 + groups as usize;
    lines::read_tag_lines(image, from, from + count as usize, tags)
}

// The checks behind those of the lines, over the numbers that the lines state: 17, 13, 14 and 15.
fn check_cells(
    starts: &[u32; START_CELLS],
    seeds: &[u32; GROUP_CELLS],
    tags: &[u32; TAG_CELLS],
    groups: u32,
) -> Result<(), Refusal>
    requires { Legal starts.now seeds.now groups }
    ensures answer { check_outcome result
        ≡ in_order (number_checks (cells_view starts.now seeds.now tags.now groups)) (answered 0) }
{
    let count = starts[groups as usize];
    if let Some(j) = unwired_slot(tags, count) {
        return Err(Reason::UnwiredTag.at(j));
    }
    if let Some(g) = faulty_group(starts, groups) {
        return Err(Reason::FaultyGroup.at(g));
    }
    match slots::slot_fault(starts, seeds, tags, groups) {
        Some(SlotFault::Misplaced(j)) => Err(Reason::WrongSlot.at(j)),
        Some(SlotFault::Repeated(j)) => Err(Reason::RepeatedTag.at(j)),
        None => Ok(()),
    }
}

// The lowest slot that holds 0. The cells behind the slots hold 0 too, and are not looked at.
fn unwired_slot(tags: &[u32; TAG_CELLS], count: u32) -> Option<usize>
    requires { count ≤ tags_max }
    ensures answer { result ≡ first (unwired_at tags.now) count }
{
    tags[..count as usize]
        .iter()
        .position(|&tag| tag == UNWIRED)
}

// The lowest faulty group.
pub fn faulty_group(starts: &[u32; START_CELLS], groups: u32) -> Option<usize>
    requires { groups ≤ groups_max }
    ensures answer { result ≡ first (faulty_at starts.now) groups }
{
    for g in 0..groups {
        let at = g as usize;
        if opening::faulty(g, starts[at], starts[at + 1]) {
            return Some(at);
        }
    }
    None
}
