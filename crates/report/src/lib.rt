// What the programs that run cases share: words, numbers and refusals printed on standard output, and a long list text. What is
// printed is held to a stored output and not proved, so nothing here has a promise. What prints takes the runtime, and returns the
// error of a write that fails.
#![tactic(auto)]

use refusal::Refusal;
use std::io;
use text::LINE_LENGTH;

pub fn words(rt: &impl Print, text: &[u8]) -> io::Result<()> {
    rt.write_all(text)
}

pub fn number(rt: &impl Print, n: u64) -> io::Result<()> {
    rt.print(n)
}

pub fn refusal(rt: &impl Print, r: Refusal) -> io::Result<()> {
    words(rt, b"refused ")?;
    number(rt, u32::from(r.reason) as u64)?;
    words(rt, b" at ")?;
    number(rt, r.place as u64)
}

// Each number, with a space before it.
pub fn numbers(rt: &impl Print, cells: &[u32]) -> io::Result<()> {
    for &cell in cells {
        words(rt, b" ")?;
        number(rt, cell as u64)?;
    }
    Ok(())
}

// Writes a list text over the whole buffer: B = 2, L = 9, and the tags 0, 1, 2, …, one a line, as many lines as there is room for.
pub fn number_lines(text: &mut [u8]) {
    if text.len() < LINE_LENGTH {
        return;
    }
    lines::write_pair_line(text, 0, 2, 9);
    let mut tag: u32 = 0;
    for line in text[LINE_LENGTH..].chunks_exact_mut(LINE_LENGTH) {
        lines::write_tag_line(line, 0, tag);
        tag = std::num::wrapping_add_u32(tag, 1);
    }
}
