// Building an index without tags, in one call.
#![tactic(auto)]

mod worked;

ghost use Rattle.std.specs.Prelude.{◌≡◌, ◌≤◌, length};
ghost use Rattle.refusal.specs.Limits.{groups_max};
ghost use Rattle.refusal.specs.Outcome.{refused};
ghost use Rattle.refusal.specs.Reason.{reason_number};
ghost use Rattle.refusal.specs.Answer.{outcome};
ghost use Rattle.tagless_image.specs.Sheet.{tagless_length};
ghost use Rattle.tagless.specs.Building.{tagless_building_of, tagless_after};
ghost use Rattle.tagless_condition.specs.Condition.{TaglessCondition};
ghost use Rattle.tagless_building.specs.Arrays.{Admitted, Orderly};

use refusal::{Reason, Refusal};
use text::LINE_LENGTH;
use word_line::WORD_LINE_LENGTH;

// The operation "building" for an index without tags, for any list, any B and L, and any buffer.
pub fn tagless_build(
    tags: &[u32],
    groups: u32,
    limit: u32,
    buffer: &mut [u8],
) -> Result<usize, Refusal>
    ensures answer { outcome result ≡ tagless_building_of tags.now groups limit (length buffer.old) }
    ensures bytes { buffer.new ≡ tagless_after tags.now groups limit buffer.old }
    ensures condition { TaglessCondition tags.now groups limit (length buffer.old) (outcome result)
        buffer.new }
{
    if refusal::outside(1, refusal::GROUPS_MAX, groups) {
        return Err(Reason::GroupCountOutOfRange.into());
    }
    if refusal::outside(1, refusal::LIMIT_MAX, limit) {
        return Err(Reason::LimitOutOfRange.into());
    }
    if refusal::TAGS_MAX < tags.len() {
        return Err(Reason::TooManyTags.into());
    }
    if let Some(i) = group::first_not_above(tags) {
        return Err(Reason::NotAscending.at(i));
    }
    if group::starts_unwired(tags) {
        return Err(Reason::UnwiredTag.into());
    }
    if buffer.len() < image_length(groups) {
        return Err(Reason::BufferTooShort.into());
    }
    build_admitted(tags, groups, limit, buffer)
}

// The length of the image, where B is in its range.
fn image_length(groups: u32) -> usize
    requires { groups ≤ groups_max }
    ensures answer { result ≡ tagless_length groups }
{
    LINE_LENGTH + WORD_LINE_LENGTH * groups as usize
}

// Building where the checks 8, 4, 5, 6, 17 and 9 pass: the tags are ordered by group.
fn build_admitted(
    tags: &[u32],
    groups: u32,
    limit: u32,
    buffer: &mut [u8],
) -> Result<usize, Refusal>
    requires { Admitted tags.now groups limit (length buffer.old) }
    ensures answer { outcome result ≡ tagless_building_of tags.now groups limit (length buffer.old) }
    ensures bytes { buffer.new
        ≡ tagless_after tags.now groups limit buffer.old }
{
    let mut ends = [0usize; refusal::GROUP_CELLS];
    let mut ordered = [0u32; refusal::TAG_CELLS];
    if let Some(g) = order::order_by_group(tags, groups, &mut ends, &mut ordered) {
        return Err(Reason::GroupTooLarge.at(g));
    }
    build_ordered(tags, groups, limit, &ordered, &ends, buffer)
}

// Building from the tags ordered by group, no group of which is too large. All seeds and words are known before the first byte is
// written.
fn build_ordered(
    tags: &[u32],
    groups: u32,
    limit: u32,
    ordered: &[u32],
    ends: &[usize],
    buffer: &mut [u8],
) -> Result<usize, Refusal>
    requires { Orderly tags.now groups limit ordered.now ends.now (length buffer.old) }
    ensures answer { outcome result ≡ tagless_building_of tags.now groups limit (length buffer.old) }
    ensures bytes { buffer.new
        ≡ tagless_after tags.now groups limit buffer.old }
{
    let mut seeds = [0; 512];
    let mut words = [0; 512];
    if let Some(g) = tagless_plan::word_groups(
        ordered,
        ends,
        groups as usize,
        limit,
        &mut seeds,
        &mut words,
    ) {
        return Err(Reason::NoSeed.at(g));
    }
    tagless_write::write_lines(ends, &seeds, &words, groups as usize, tags.len(), buffer);
    Ok(image_length(groups))
}
