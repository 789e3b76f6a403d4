// The group lines of an index without tags: read where they stand, and written in place.
#![tactic(auto)]

mod worked;

ghost use Rattle.std.specs.Prelude.{◌≡◌, ◌+◌, ◌≤◌, leb, ltb, length, take, drop, option_map};
ghost use Rattle.lists.specs.Written.{written_at};
ghost use Rattle.refusal.specs.Limits.{seed_max};
ghost use Rattle.text.specs.Field.{field};
ghost use Rattle.text.specs.Line.{line_length, both_fields, within, slot_line};
ghost use Rattle.word_line.specs.WordLine.{word_line_length, word_line, group_word_line, start_and_seed};

// Start and seed in five columns each, a word in ten, and a line feed.
pub const WORD_LINE_LENGTH: usize = 21;

// The start and the seed of the line at a byte of the text; the seed is at most 65,535.
fn fields_at(bytes: &[u8], at: usize) -> Option<(u32, u32)>
    ensures answer { result ≡ within (λ h. leb h.1 seed_max) (both_fields
        (field 5 (take 5 (drop at bytes.now))) (field 5 (take 5 (drop (at + 5) bytes.now)))) }
{
    let (start, seed) = lines::read_two_fields(bytes, at)?;
    if refusal::SEED_MAX < seed {
        return None;
    }
    Some((start, seed))
}

// The word of the line at a byte of the text, at most 4,294,967,295, and the line feed behind it: they are read as a tag's line is.
fn word_at(bytes: &[u8], at: usize) -> Option<u32>
    requires { at + word_line_length ≤ length bytes.now }
    ensures answer { result ≡ slot_line (take line_length (drop (at + 10) bytes.now)) }
{
    let from = at + 10;
    let end = from + text::LINE_LENGTH;
    text::tag_in(&bytes[from..end])
}

// The group line at a byte of the text. A line that the text cuts off is malformed.
pub fn read_word_line(bytes: &[u8], at: usize) -> Option<(u32, u32, u32)>
    ensures answer { result ≡ group_word_line (take word_line_length (drop at bytes.now)) }
{
    text::part(bytes, at, WORD_LINE_LENGTH)?;
    let (start, seed) = fields_at(bytes, at)?;
    let word = word_at(bytes, at)?;
    Some((start, seed, word))
}

// The same but for the word's number, where it is not asked for: a line is malformed all the same if its word is. Not by
// `read_word_line`: what one caller alone calls is inlined, and a lookup is then a third faster.
pub fn read_start_and_seed(bytes: &[u8], at: usize) -> Option<(u32, u32)>
    ensures answer { result ≡ option_map start_and_seed (group_word_line (take word_line_length (drop at bytes.now))) }
{
    text::part(bytes, at, WORD_LINE_LENGTH)?;
    let (start, seed) = fields_at(bytes, at)?;
    let _word = word_at(bytes, at)?;
    Some((start, seed))
}

// Writes a group's line; the bytes before and after it stay.
pub fn write_word_line(buffer: &mut [u8], at: usize, start: u32, seed: u32, word: u32)
    requires { at + word_line_length ≤ length buffer.old }
    ensures bytes { buffer.new ≡ written_at at (word_line start seed word) buffer.old }
{
    lines::write_field(buffer, at, 5, start);
    lines::write_field(buffer, at + 5, 5, seed);
    lines::write_tag_line(buffer, at + 10, word);
}
