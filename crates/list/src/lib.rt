// The operation "reading a list": B, L and the tags that a list text states, for any bytes and any number of cells.
#![tactic(auto)]

ghost use Rattle.std.specs.Prelude.{◌≡◌, ◌++◌, ◌≤◌, length, take, drop};
ghost use Rattle.refusal.specs.Outcome.{refused, answered_by};
ghost use Rattle.list.specs.Reading.{reading_of, cells_after};
ghost use Rattle.refusal.specs.Answer.{outcome};
ghost use Rattle.list.specs.Answer.{head_of};

use refusal::{Reason, Refusal};

// What reading answers: B, L and the count; the tags are in the cells.
#[derive(Clone, Copy, Debug, PartialEq, Eq)]
pub struct ListHead {
    pub groups: u32,
    pub limit: u32,
    pub count: usize,
}

// The operation "reading a list". Every line is examined before a cell is written: the tags wait in cells of reading's own.
pub fn read_list(text: &[u8], cells: &mut [u32]) -> Result<ListHead, Refusal>
    ensures answer { outcome result ≡ answered_by head_of (reading_of text.now (length cells.old)) }
    ensures cells { cells.new
        ≡ cells_after (reading_of text.now (length cells.old)) cells.old }
{
    if text.len() < text::LINE_LENGTH {
        return Err(Reason::MalformedList.into());
    }
    if text.len() % text::LINE_LENGTH != 0 {
        return Err(Reason::MalformedList.into());
    }
    let Some((groups, limit)) = lines::read_list_header(text, 0) else {
        return Err(Reason::MalformedList.into());
    };
    let lines = text.len() / text::LINE_LENGTH;
    let mut tags = [0u32; refusal::TAG_CELLS];
    // Every line is examined, also those that there is no cell for: 16 comes before 5.
    if let Some(k) = lines::read_tag_lines(text, 1, lines, &mut tags) {
        return Err(Reason::MalformedList.at(k));
    }
    let count = lines - 1;
    if refusal::TAGS_MAX < count {
        return Err(Reason::TooManyTags.into());
    }
    if cells.len() < count {
        return Err(Reason::BufferTooShort.into());
    }
    copy(&tags, count, cells);
    Ok(ListHead {
        groups,
        limit,
        count,
    })
}

// Copies the first `count` tags into the cells; the cells after them stay.
fn copy(tags: &[u32], count: usize, cells: &mut [u32])
    requires { (count ≤ length tags.now) × (count ≤ length cells.old) }
    ensures cells { cells.new ≡ take count tags.now ++ drop count cells.old }
{
    cells[..count].copy_from_slice(&tags[..count]);
}
