// The operation "lookup": the number of a tag in an image, for any bytes and any tag.
#![tactic(auto)]

ghost use Rattle.std.specs.Prelude.{◌≡◌, ◌*◌, ◌+◌, ◌≤◌, ◌<◌};
ghost use Rattle.refusal.specs.Outcome.{refused};
ghost use Rattle.refusal.specs.Limits.{tags_max, groups_max, seed_max};
ghost use Rattle.hash.specs.Formula.{group_of};
ghost use Rattle.image.specs.View.{view_of, groups_in};
ghost use Rattle.image.specs.Lookup.{lookup_of};
ghost use Rattle.opening.specs.Opening.{Opens};
ghost use Rattle.lookup.specs.Steps.{end_of, slots_of, group_outcome};
ghost use Rattle.lookup.specs.Condition2.{Condition2};
ghost use Rattle.lookup.specs.Answer.{lookup_outcome};

use refusal::{Reason, Refusal, UNWIRED};
use text::LINE_LENGTH;

// What lookup answers: the slot number, unknown, or refused. An enum of its own: document 01 asks for one with these three cases.
#[derive(Clone, Copy, Debug, PartialEq, Eq)]
pub enum LookupAnswer {
    Number(u32),
    Unknown,
    Refused(Refusal),
}

// The operation "lookup". Tag 0 belongs to nobody: no group line and no slot line is read for it.
pub fn lookup(image: &[u8], tag: u32) -> LookupAnswer
    ensures answer { lookup_outcome result ≡ lookup_of image.now tag }
    ensures checked { Condition2 image.now tag (lookup_outcome result) }
{
    match opening::open(image) {
        Ok((count, groups)) => {
            if tag == UNWIRED {
                return LookupAnswer::Unknown;
            }
            in_group(image, count, groups, tag)
        }
        Err(refusal) => LookupAnswer::Refused(refusal),
    }
}

// Lookup in an image that opens: the lines of the tag's group, its fault, and its slots.
fn in_group(image: &[u8], count: u32, groups: u32, tag: u32) -> LookupAnswer
    requires { Opens image.now count groups }
    ensures answer { lookup_outcome result ≡ group_outcome (view_of image.now) tag (group_of groups tag) }
{
    let g = hash::group_of(groups, tag);
    let line = 1 + g as usize;
    let Some((start, seed)) = lines::read_group_line(image, LINE_LENGTH * line) else {
        return LookupAnswer::Refused(Reason::MalformedLine.at(line));
    };
    let Some(end) = group_end(image, count, groups, g) else {
        return LookupAnswer::Refused(Reason::MalformedLine.at(line + 1));
    };
    if opening::faulty(g, start, end) {
        return LookupAnswer::Refused(Reason::FaultyGroup.at(g as usize));
    }
    if count < end {
        return LookupAnswer::Refused(Reason::FaultyGroup.at(g as usize));
    }
    in_slots(image, groups, start, end, seed, tag)
}

// Where group g ends: at the next group's start, or at N after the last group.
fn group_end(image: &[u8], count: u32, groups: u32, g: u32) -> Option<u32>
    requires opens { Opens image.now count groups }
    requires g_lt_groups { g < groups }
    ensures answer { result ≡ end_of (view_of image.now) g }
{
    let next = g + 1;
    if next == groups {
        return Some(count);
    }
    let Some((start, _)) = lines::read_group_line(image, LINE_LENGTH * (1 + next as usize)) else {
        return None;
    };
    Some(start)
}

// The slots of the tag's two places in its group, which starts at `start` and ends at `end`.
fn in_slots(image: &[u8], groups: u32, start: u32, end: u32, seed: u32, tag: u32) -> LookupAnswer
    requires image_value { groups_in (view_of image.now) ≡ groups }
    requires groups_le_groups_max { (groups ≤ groups_max) × (start ≤ end) × (end ≤ tags_max) × (seed ≤ seed_max) }
    ensures answer { lookup_outcome result ≡ slots_of (view_of image.now) start end seed tag }
{
    if start == end {
        return LookupAnswer::Unknown;
    }
    let n = end - start;
    for choice in 0..2 {
        let slot = start + hash::place_of(n, seed, choice, tag);
        let line = 1 + groups as usize + slot as usize;
        let Some(held) = lines::read_slot_line(image, LINE_LENGTH * line) else {
            return LookupAnswer::Refused(Reason::MalformedLine.at(line));
        };
        if held == tag {
            return LookupAnswer::Number(slot);
        }
    }
    LookupAnswer::Unknown
}
