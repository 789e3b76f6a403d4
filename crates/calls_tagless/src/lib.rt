// The calls of the C boundary on an index without tags, each with one 64-bit answer. Document 02, §5.
#![tactic(auto)]

mod worked;

ghost use Rattle.std.specs.Prelude.{◌≡◌, length};
ghost use Rattle.tagless.specs.FromText.{tagless_buffer_from_text};
ghost use Rattle.calls_tagless.specs.Tagless.{tagless_build_answer, tagless_check_answer, tagless_lookup_answer};
ghost use Rattle.calls_tagless.specs.Tagless.{TaglessBuildCondition, TaglessAnswerCondition2};

use lookup::LookupAnswer;

// Builds the index without tags of a list text at the beginning of `image`, and answers its length.
pub fn build(text: &[u8], image: &mut [u8]) -> u64
    ensures answer { result ≡ tagless_build_answer text.now (length image.old) }
    ensures bytes { image.new ≡ tagless_buffer_from_text text.now image.old }
    ensures condition { TaglessBuildCondition text.now image.old result image.new }
{
    match tagless_from_text::build_from_text(text, image) {
        Ok(size) => size as u64,
        Err(refusal) => answer64::refusal_answer(refusal),
    }
}

// Checks an index without tags, and answers 0 for one that is accepted.
pub fn check(image: &[u8]) -> u64
    ensures answer { result ≡ tagless_check_answer image.now }
{
    match tagless_checking::tagless_check(image) {
        Ok(()) => 0,
        Err(refusal) => answer64::refusal_answer(refusal),
    }
}

// Looks a tag up in an index without tags, and answers its number; a tag that was not listed has one too.
pub fn lookup(image: &[u8], tag: u32) -> u64
    ensures answer { result ≡ tagless_lookup_answer image.now tag }
    ensures checked { TaglessAnswerCondition2 image.now tag result }
{
    match tagless_lookup::tagless_lookup(image, tag) {
        LookupAnswer::Number(j) => j as u64,
        LookupAnswer::Unknown => UNKNOWN,
        LookupAnswer::Refused(refusal) => answer64::refusal_answer(refusal),
    }
}

// What tag 0, and a tag whose group has none, answer.
const UNKNOWN: u64 = 4294967295;
