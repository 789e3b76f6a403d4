// Lookup in an index without tags: the number of a tag, for any bytes and any tag.
#![tactic(auto)]

mod worked;

ghost use Rattle.std.specs.Prelude.{◌≡◌, ◌≤◌, ◌<◌};
ghost use Rattle.refusal.specs.Limits.{seed_max};
ghost use Rattle.hash.specs.Formula.{group_of, place_of};
ghost use Rattle.filling.specs.Word.{choice_number};
ghost use Rattle.lookup.specs.Steps.{end_of};
ghost use Rattle.lookup.specs.Answer.{lookup_outcome};
ghost use Rattle.tagless_group.specs.Words.{choice_by};
ghost use Rattle.tagless_image.specs.View.{tagless_view};
ghost use Rattle.tagless_image.specs.Lookup.{tagless_lookup_of};
ghost use Rattle.tagless_opening.specs.Opening.{TaglessOpens};
ghost use Rattle.tagless_lookup.specs.Steps.{group_outcome};
ghost use Rattle.tagless_lookup.specs.Checked.{TaglessCondition2};

use lookup::LookupAnswer;
use refusal::{Reason, UNWIRED};

// The operation "lookup" for an index without tags. No group line is read for tag 0.
pub fn tagless_lookup(image: &[u8], tag: u32) -> LookupAnswer
    ensures answer { lookup_outcome result ≡ tagless_lookup_of image.now tag }
    ensures checked { TaglessCondition2 image.now tag (lookup_outcome result) }
{
    match tagless_opening::open(image) {
        Ok((count, groups)) => {
            if tag == UNWIRED {
                return LookupAnswer::Unknown;
            }
            in_group(image, count, groups, tag)
        }
        Err(refusal) => LookupAnswer::Refused(refusal),
    }
}

// Lookup in an image that opens: the line of the tag's group and the next one, the group's fault, and the choice by its word.
fn in_group(image: &[u8], count: u32, groups: u32, tag: u32) -> LookupAnswer
    requires { TaglessOpens image.now count groups }
    ensures answer { lookup_outcome result ≡ group_outcome image.now tag (group_of groups tag) }
{
    let g = hash::group_of(groups, tag);
    let Some((start, seed, word)) = tagless_opening::read_group(image, groups, g) else {
        return LookupAnswer::Refused(Reason::MalformedLine.at(1 + g as usize));
    };
    let Some(end) = group_end(image, count, groups, g) else {
        return LookupAnswer::Refused(Reason::MalformedLine.at(2 + g as usize));
    };
    if opening::faulty(g, start, end) {
        return LookupAnswer::Refused(Reason::FaultyGroup.at(g as usize));
    }
    if count < end {
        return LookupAnswer::Refused(Reason::FaultyGroup.at(g as usize));
    }
    if start == end {
        return LookupAnswer::Unknown;
    }
    LookupAnswer::Number(start + place_by(end - start, seed, word, tag))
}

// Where group g ends: at the next group's start, or at N after the last group.
fn group_end(image: &[u8], count: u32, groups: u32, g: u32) -> Option<u32>
    requires tagless_opens { TaglessOpens image.now count groups }
    requires g_lt_groups { g < groups }
    ensures answer { result ≡ end_of (tagless_view image.now) g }
{
    let next = g + 1;
    if next == groups {
        return Some(count);
    }
    let Some((start, _)) = tagless_opening::read_start_and_seed(image, groups, next) else {
        return None;
    };
    Some(start)
}

// The place of a tag in a group of n tags, by the choice that the group's word makes for it.
fn place_by(n: u32, seed: u32, word: u32, tag: u32) -> u32
    requires { seed ≤ seed_max }
    ensures answer { result ≡ place_of n seed (choice_number (choice_by word seed tag)) tag }
{
    hash::place_of(n, seed, tagless_group::choice_by(word, seed, tag), tag)
}
