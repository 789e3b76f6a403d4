// The lines of a text: read where they stand, and written in place, field by field. `text` has what a field and a line read as.
#![tactic(auto)]

ghost use Rattle.std.specs.Prelude.{◌≡◌, ◌+◌, ◌*◌, ◌≤◌, ltb, length, take, drop};
ghost use Rattle.lists.specs.First.{first};
ghost use Rattle.lists.specs.Written.{written_at};
ghost use Rattle.refusal.specs.Limits.{tag_end, tags_max};
ghost use Rattle.text.specs.Figure.{figure};
ghost use Rattle.text.specs.Field.{field};
ghost use Rattle.text.specs.Line.{line_length, pair_line, tag_line, both_fields, pair_of, tag_of, within, image_header, group_line};
ghost use Rattle.text.specs.Line.{slot_line};
ghost use Rattle.text.specs.Line.{list_header, list_line};
ghost use Rattle.text.specs.TagLines.{no_tag_from, passed, tags_stored};

use refusal::TAG_CELLS;
use text::LINE_LENGTH;

// The line at a byte of the text, two fields or one tag. A line that the text cuts off is malformed.
fn read_pair(bytes: &[u8], at: usize) -> Option<(u32, u32)>
    ensures answer { result ≡ pair_of (take line_length (drop at bytes.now)) }
{
    text::pair_in(text::part(bytes, at, LINE_LENGTH)?)
}

fn read_tag(bytes: &[u8], at: usize) -> Option<u32>
    ensures answer { result ≡ within (λ t. ltb t tag_end) (tag_of (take line_length (drop at bytes.now))) }
{
    text::tag_in(text::part(bytes, at, LINE_LENGTH)?)
}

// The two fields of five columns at a byte of the text, without a line feed behind them. Fields that the text cuts off are malformed.
pub fn read_two_fields(bytes: &[u8], at: usize) -> Option<(u32, u32)>
    ensures answer { result ≡ both_fields
        (field 5 (take 5 (drop at bytes.now))) (field 5 (take 5 (drop (at + 5) bytes.now))) }
{
    text::fields_in(text::part(bytes, at, 10)?)
}

// The first line from line `from` on, before line `end`, that is no tag's. The tags of the lines before it are stored, as many as
// there are cells; the lines after those are examined all the same.
pub fn read_tag_lines(
    bytes: &[u8],
    from: usize,
    end: usize,
    cells: &mut [u32; TAG_CELLS],
) -> Option<usize>
    requires from_le_end { (from ≤ end) × (line_length * end ≤ length bytes.now) }
    requires cells_len { length cells.old ≡ tags_max }
    ensures answer { result ≡ first (no_tag_from from bytes.now) end }
    ensures cells { cells.new
        ≡ tags_stored (passed result from end) from bytes.now cells.old }
{
    for k in from..end {
        let at = LINE_LENGTH * k;
        let after = at + LINE_LENGTH;
        let Some(t) = text::tag_in(&bytes[at..after]) else {
            return Some(k);
        };
        if k - from < TAG_CELLS {
            cells[k - from] = t;
        }
    }
    None
}

// Line 0 of an image: N, at most 4,096, and B, 1 to 512.
pub fn read_image_header(bytes: &[u8], at: usize) -> Option<(u32, u32)>
    ensures answer { result ≡ image_header (take line_length (drop at bytes.now)) }
{
    let (n, b) = read_pair(bytes, at)?;
    if refusal::TAGS_MAX < n as usize {
        return None;
    }
    if b < 1 {
        return None;
    }
    if refusal::GROUPS_MAX < b {
        return None;
    }
    Some((n, b))
}

// A group's line: its start, and its seed, at most 65,535.
pub fn read_group_line(bytes: &[u8], at: usize) -> Option<(u32, u32)>
    ensures answer { result ≡ group_line (take line_length (drop at bytes.now)) }
{
    let (start, seed) = read_pair(bytes, at)?;
    if refusal::SEED_MAX < seed {
        return None;
    }
    Some((start, seed))
}

// A slot's line: its tag.
pub fn read_slot_line(bytes: &[u8], at: usize) -> Option<u32>
    ensures answer { result ≡ slot_line (take line_length (drop at bytes.now)) }
{
    read_tag(bytes, at)
}

// Line 0 of a list text: B and L, in any range that five columns hold.
pub fn read_list_header(bytes: &[u8], at: usize) -> Option<(u32, u32)>
    ensures answer { result ≡ list_header (take line_length (drop at bytes.now)) }
{
    read_pair(bytes, at)
}

// A later line of a list text: its tag.
pub fn read_list_line(bytes: &[u8], at: usize) -> Option<u32>
    ensures answer { result ≡ list_line (take line_length (drop at bytes.now)) }
{
    read_tag(bytes, at)
}

// Writes the figure of n over the whole slice.
fn write_figure(s: &mut [u8], n: u32)
    ensures bytes { s.new ≡ figure (length s.old) n }
{
    let first = digits::first_column(n, s.len());
    digits::write_digits_from(s, first, n);
}

// Writes the figure of n into a field of so many columns; the bytes before and after it stay.
pub fn write_field(buffer: &mut [u8], at: usize, width: usize, n: u32)
    requires { at + width ≤ length buffer.old }
    ensures bytes { buffer.new ≡ written_at at (figure width n) buffer.old }
{
    let end = at + width;
    write_figure(&mut buffer[at..end], n);
}

// Writes a line of two numbers; the bytes before and after it stay.
pub fn write_pair_line(buffer: &mut [u8], at: usize, a: u32, b: u32)
    requires { at + line_length ≤ length buffer.old }
    ensures bytes { buffer.new ≡ written_at at (pair_line a b) buffer.old }
{
    write_field(buffer, at, 5, a);
    write_field(buffer, at + 5, 5, b);
    buffer[at + 10] = b'\n';
}

// Writes the figure of a tag in ten columns; the bytes before and after it stay. Most tags have nine digits or ten: eight of them, and
// those of a tag of eight, are written at once.
fn write_tag(buffer: &mut [u8], at: usize, t: u32)
    requires { at + 10 ≤ length buffer.old }
    ensures bytes { buffer.new ≡ written_at at (figure 10 t) buffer.old }
{
    let first = digits::first_column(t, 10);
    if 2 < first {
        write_field(buffer, at, 10, t);
        return;
    }
    let end = at + 2;
    digits::write_digits_from(&mut buffer[at..end], first, t / 100000000);
    digits::write_eight_digits(buffer, at + 2, t % 100000000);
}

// Writes a line of one tag; the bytes before and after it stay.
pub fn write_tag_line(buffer: &mut [u8], at: usize, t: u32)
    requires { at + line_length ≤ length buffer.old }
    ensures bytes { buffer.new ≡ written_at at (tag_line t) buffer.old }
{
    write_tag(buffer, at, t);
    buffer[at + 10] = b'\n';
}
