// The operations as calls over the C boundary, each with one 64-bit answer. The crate tag_index_c exports them to C.
#![tactic(auto)]

ghost use Rattle.std.specs.Prelude.{◌≡◌, length};
ghost use Rattle.numbering.specs.FromText.{plan_from_text, written_from_text, buffer_from_text};
ghost use Rattle.tag_index.specs.Calls.{plan_answer, write_answer, build_answer, check_answer, lookup_answer};
ghost use Rattle.tag_index.specs.Condition2.{AnswerCondition2};
ghost use Rattle.tagless.specs.FromText.{tagless_buffer_from_text};
ghost use Rattle.calls_tagless.specs.Tagless.{tagless_build_answer, tagless_check_answer, tagless_lookup_answer};
ghost use Rattle.calls_tagless.specs.Tagless.{TaglessBuildCondition, TaglessAnswerCondition2};
ghost use Rattle.calls_strict.specs.Strict.{strict_check_answer, StrictAnswerCondition};
ghost use Rattle.tag_index.specs.Condition3.{PlanCondition3, WriteCondition3, BuildCondition3};
ghost use Rattle.calls_group.specs.Place.{place_answer, word_after, PlaceCondition3};
ghost use Rattle.calls_group.specs.Parts.{parts_answer, PartsAnswerCondition};

use lookup::LookupAnswer;

// Builds the image of a list text at the beginning of `image`, and answers its length.
pub fn tag_index_build(text: &[u8], image: &mut [u8]) -> u64
    ensures answer { result ≡ build_answer text.now (length image.old) }
    ensures bytes { image.new ≡ buffer_from_text text.now image.old }
    ensures condition3 { BuildCondition3 text.now image.old result image.new }
{
    match from_text::build_from_text(text, image) {
        Ok(size) => size as u64,
        Err(refusal) => answer64::refusal_answer(refusal),
    }
}

// Plans the list of a list text, and answers B. `plan` is left with B and then the seed of each group; a refusal leaves zeros.
pub fn tag_index_plan(text: &[u8], plan: &mut [u32; 513]) -> u64
    ensures answer { result ≡ plan_answer text.now }
    ensures plan { plan.new ≡ plan_from_text text.now }
    ensures condition3 { PlanCondition3 text.now result plan.new }
{
    match from_text::plan_from_text(text, plan) {
        Ok(groups) => groups as u64,
        Err(refusal) => answer64::refusal_answer(refusal),
    }
}

// Writes the image of the tags of a list text under any plan at the beginning of `image`, and answers its length.
pub fn tag_index_write(text: &[u8], plan: &[u32; 513], image: &mut [u8]) -> u64
    ensures answer { result ≡ write_answer text.now plan.now (length image.old) }
    ensures bytes { image.new ≡ written_from_text text.now plan.now image.old }
    ensures condition3 { WriteCondition3 text.now plan.now result image.new }
{
    match from_text::write_from_text(text, plan, image) {
        Ok(size) => size as u64,
        Err(refusal) => answer64::refusal_answer(refusal),
    }
}

// Checks an image, and answers 0 for one that is accepted.
pub fn tag_index_check(image: &[u8]) -> u64
    ensures answer { result ≡ check_answer image.now }
{
    match checking::check_image(image) {
        Ok(()) => 0,
        Err(refusal) => answer64::refusal_answer(refusal),
    }
}

// Checks an image strictly, and answers 0 for one that building writes for some list.
pub fn tag_index_strict_check(image: &[u8]) -> u64
    ensures answer { result ≡ strict_check_answer image.now }
    ensures condition { StrictAnswerCondition image.now result }
{
    calls_strict::strict_check(image)
}

// Looks a tag up in an image, and answers its number.
pub fn tag_index_lookup(image: &[u8], tag: u32) -> u64
    ensures answer { result ≡ lookup_answer image.now tag }
    ensures checked { AnswerCondition2 image.now tag result }
{
    match lookup::lookup(image, tag) {
        LookupAnswer::Number(j) => j as u64,
        LookupAnswer::Unknown => UNKNOWN,
        LookupAnswer::Refused(refusal) => answer64::refusal_answer(refusal),
    }
}

// Places a group: answers its least seed, and leaves the choice word in the cell.
pub fn tag_index_place_group(tags: &[u32], limit: u32, word: &mut [u32; 1]) -> u64
    ensures answer { result ≡ place_answer tags.now limit }
    ensures cell { word.new ≡ word_after tags.now limit word.old }
    ensures condition3 { PlaceCondition3 tags.now limit result word.new }
{
    calls_group::place_group(tags, limit, word)
}

// Counts the parts of a group's graph under a seed: answers twice their number, and one more if the seed serves.
pub fn tag_index_parts(tags: &[u32], seed: u32) -> u64
    ensures answer { result ≡ parts_answer tags.now seed }
    ensures condition { PartsAnswerCondition tags.now seed result }
{
    calls_group::count_parts(tags, seed)
}

// Builds the index without tags of a list text at the beginning of `image`, and answers its length.
pub fn tag_index_tagless_build(text: &[u8], image: &mut [u8]) -> u64
    ensures answer { result ≡ tagless_build_answer text.now (length image.old) }
    ensures bytes { image.new ≡ tagless_buffer_from_text text.now image.old }
    ensures condition { TaglessBuildCondition text.now image.old result image.new }
{
    calls_tagless::build(text, image)
}

// Checks an index without tags, and answers 0 for one that is accepted.
pub fn tag_index_tagless_check(image: &[u8]) -> u64
    ensures answer { result ≡ tagless_check_answer image.now }
{
    calls_tagless::check(image)
}

// Looks a tag up in an index without tags, and answers its number; a tag that was not listed has one too.
pub fn tag_index_tagless_lookup(image: &[u8], tag: u32) -> u64
    ensures answer { result ≡ tagless_lookup_answer image.now tag }
    ensures checked { TaglessAnswerCondition2 image.now tag result }
{
    calls_tagless::lookup(image, tag)
}

// What a tag that the image does not have answers.
const UNKNOWN: u64 = 4294967295;
