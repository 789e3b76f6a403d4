// The index without tags that arrays state: line 0, and a line for each group.
#![tactic(auto)]

mod worked;

ghost use Rattle.std.specs.Prelude.{◌≡◌, ◌++◌, ◌+◌, ◌*◌, ◌<◌, length, drop};
ghost use Rattle.lists.specs.Written.{written_at};
ghost use Rattle.text.specs.Line.{line_length};
ghost use Rattle.word_line.specs.WordLine.{word_line_length};
ghost use Rattle.tagless_image.specs.Sheet.{group_line_of, tagless_bytes, tagless_length};
ghost use Rattle.tagless_write.specs.Stated.{stated_sheet, Writable};

use text::LINE_LENGTH;
use word_line::WORD_LINE_LENGTH;

// Writes the image that the arrays state, line after line; the bytes after it stay.
pub fn write_lines(
    ends: &[usize],
    seeds: &[u32],
    words: &[u32],
    groups: usize,
    count: usize,
    buffer: &mut [u8],
)
    requires { Writable ends.now seeds.now words.now groups count (length buffer.old) }
    ensures bytes { buffer.new ≡ tagless_bytes
        (stated_sheet ends.now seeds.now words.now groups count)
        ++ drop (tagless_length groups) buffer.old }
{
    lines::write_pair_line(buffer, 0, count as u32, groups as u32);
    for g in 0..groups {
        write_group(ends, seeds, words, groups, count, g, buffer);
    }
}

// Writes the line of group g. The other bytes stay.
fn write_group(
    ends: &[usize],
    seeds: &[u32],
    words: &[u32],
    groups: usize,
    count: usize,
    g: usize,
    buffer: &mut [u8],
)
    requires { Writable ends.now seeds.now words.now groups count (length buffer.old) × (g < groups) }
    ensures bytes { buffer.new ≡ written_at (line_length + word_line_length * g)
        (group_line_of (stated_sheet ends.now seeds.now words.now groups count) g)
        buffer.old }
{
    let at = LINE_LENGTH + WORD_LINE_LENGTH * g;
    word_line::write_word_line(buffer, at, write::start_of(ends, g), seeds[g], words[g]);
}
