// The operation "writing": the image of a list under a plan, at the beginning of a buffer.
#![tactic(auto)]

mod worked;

ghost use Rattle.std.specs.Prelude.{◌≡◌, ◌≤◌, ◌<◌, length};
ghost use Rattle.refusal.specs.Limits.{tags_max, groups_max};
ghost use Rattle.lists.specs.First.{first};
ghost use Rattle.refusal.specs.Outcome.{refused};
ghost use Rattle.refusal.specs.Reason.{reason_number};
ghost use Rattle.image.specs.Sheet.{image_length};
ghost use Rattle.numbering.specs.Writing.{seed_above, writing_of, buffer_written};
ghost use Rattle.condition3.specs.Condition3.{WritingCondition3};
ghost use Rattle.refusal.specs.Answer.{outcome};
ghost use Rattle.writing.specs.Arrays.{Admitted, Orderly};

use refusal::{Reason, Refusal};

// The operation "writing", for any list, any plan and any buffer. A plan is B and then 512 seeds, of which the first B are looked at.
pub fn write_list(
    tags: &[u32],
    plan: &[u32; refusal::PLAN_CELLS],
    buffer: &mut [u8],
) -> Result<usize, Refusal>
    ensures answer { outcome result ≡ writing_of tags.now plan.now (length buffer.old) }
    ensures bytes { buffer.new ≡ buffer_written tags.now plan.now buffer.old } // all bytes, for any list and plan
    ensures condition3 { WritingCondition3 tags.now plan.now (outcome result) buffer.new }
{
    let groups = plan[0];
    if refusal::outside(1, refusal::GROUPS_MAX, groups) {
        return Err(Reason::GroupCountOutOfRange.into());
    }
    if let Some(g) = first_seed_above(plan, groups as usize) {
        return Err(Reason::SeedOutOfRange.at(g));
    }
    if refusal::TAGS_MAX < tags.len() {
        return Err(Reason::TooManyTags.into());
    }
    if let Some(i) = group::first_not_above(tags) {
        return Err(Reason::NotAscending.at(i));
    }
    if group::starts_unwired(tags) {
        return Err(Reason::UnwiredTag.into());
    }
    if buffer.len() < image_length(groups, tags.len()) {
        return Err(Reason::BufferTooShort.into());
    }
    write_admitted(tags, groups, plan, buffer)
}

// The lowest of the first groups whose seed in the plan is above 65,535.
fn first_seed_above(plan: &[u32], groups: usize) -> Option<usize>
    requires { groups < length plan.now }
    ensures answer { result ≡ first (seed_above plan.now) groups }
{
    plan[1..=groups]
        .iter()
        .position(|&seed| refusal::SEED_MAX < seed)
}

// Writing where the checks 8, 2, 5, 6, 17 and 9 pass: the tags are ordered by group.
fn write_admitted(
    tags: &[u32],
    groups: u32,
    plan: &[u32],
    buffer: &mut [u8],
) -> Result<usize, Refusal>
    requires { Admitted tags.now groups plan.now (length buffer.old) }
    ensures answer { outcome result ≡ writing_of tags.now plan.now (length buffer.old) }
    ensures bytes { buffer.new ≡ buffer_written tags.now plan.now buffer.old }
{
    let mut ends = [0usize; refusal::GROUP_CELLS];
    let mut ordered = [0u32; refusal::TAG_CELLS];
    if let Some(g) = order::order_by_group(tags, groups, &mut ends, &mut ordered) {
        return Err(Reason::GroupTooLarge.at(g));
    }
    write_ordered(tags, groups, plan, &ordered, &ends, buffer)
}

// Writing from the tags ordered by group, no group of which is too large. All slots are known before the first byte is written.
fn write_ordered(
    tags: &[u32],
    groups: u32,
    plan: &[u32],
    ordered: &[u32],
    ends: &[usize],
    buffer: &mut [u8],
) -> Result<usize, Refusal>
    requires { Orderly tags.now groups plan.now ordered.now ends.now (length buffer.old) }
    ensures answer { outcome result ≡ writing_of tags.now plan.now (length buffer.old) }
    ensures bytes { buffer.new ≡ buffer_written tags.now plan.now buffer.old }
{
    let seeds = &plan[1..];
    let mut slots = [0u32; refusal::TAG_CELLS];
    if let Some(g) = arrange::arrange(ordered, ends, seeds, groups as usize, &mut slots) {
        return Err(Reason::SeedDoesNotServe.at(g));
    }
    write::write_lines(ends, seeds, &slots, groups as usize, tags.len(), buffer);
    Ok(image_length(groups, tags.len()))
}

// The length of the image, where B and N are in their ranges.
fn image_length(groups: u32, count: usize) -> usize
    requires { (groups ≤ groups_max) × (count ≤ tags_max) }
    ensures answer { result ≡ image_length groups count }
{
    text::LINE_LENGTH * (1 + groups as usize + count)
}
