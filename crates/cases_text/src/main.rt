// Runs chosen cases of the text and digits crates: figures and fields at their edges, the five kinds of line, lines written, and the
// width of numbers.
#![tactic(auto)]

use std::io;

fn field(rt: &impl Print, bytes: &[u8], at: usize, width: usize) -> io::Result<()> {
    report::words(rt, b"field \"")?;
    report::words(rt, bytes)?;
    report::words(rt, b"\" from ")?;
    report::number(rt, at as u64)?;
    report::words(rt, b", ")?;
    report::number(rt, width as u64)?;
    report::words(rt, b" columns: ")?;
    if width <= 19 {
        match text::read_field(bytes, at, width) {
            Some(n) => report::number(rt, n)?,
            None => report::words(rt, b"malformed")?,
        }
    }
    report::words(rt, b"\n")
}

fn pair(rt: &impl Print, answer: Option<(u32, u32)>) -> io::Result<()> {
    match answer {
        Some((a, b)) => {
            report::number(rt, a as u64)?;
            report::words(rt, b" and ")?;
            report::number(rt, b as u64)?;
        }
        None => report::words(rt, b"malformed")?,
    }
    report::words(rt, b"\n")
}

fn tag(rt: &impl Print, answer: Option<u32>) -> io::Result<()> {
    match answer {
        Some(t) => report::number(rt, t as u64)?,
        None => report::words(rt, b"malformed")?,
    }
    report::words(rt, b"\n")
}

// One line of text, read as each kind of line.
fn line(rt: &impl Print, bytes: &[u8]) -> io::Result<()> {
    report::words(rt, b"line ")?;
    report::words(rt, bytes)?;
    report::words(rt, b"  image header: ")?;
    pair(rt, lines::read_image_header(bytes, 0))?;
    report::words(rt, b"  group line: ")?;
    pair(rt, lines::read_group_line(bytes, 0))?;
    report::words(rt, b"  slot line: ")?;
    tag(rt, lines::read_slot_line(bytes, 0))?;
    report::words(rt, b"  list header: ")?;
    pair(rt, lines::read_list_header(bytes, 0))?;
    report::words(rt, b"  list line: ")?;
    tag(rt, lines::read_list_line(bytes, 0))
}

// Zero, the widest figures, and what is no figure: needless zeros, spaces behind or between, other bytes, blanks, cut fields.
fn fields(rt: &impl Print) -> io::Result<()> {
    field(rt, b"    0", 0, 5)?;
    field(rt, b"99999", 0, 5)?;
    field(rt, b"4294967295", 0, 10)?;
    field(rt, b"9999999999", 0, 10)?;
    field(rt, b"   19", 2, 3)?;
    field(rt, b"   07", 0, 5)?;
    field(rt, b"00000", 0, 5)?;
    field(rt, b"19   ", 0, 5)?;
    field(rt, b" 1 9 ", 0, 5)?;
    field(rt, b"   1:", 0, 5)?;
    field(rt, b"   1/", 0, 5)?;
    field(rt, b"  -19", 0, 5)?;
    field(rt, b"     ", 0, 5)?;
    field(rt, b"   19", 1, 5)?;
    field(rt, b"   19", 9, 1)?;
    field(rt, b"", 0, 0)
}

// The ends of each range, line ends, and lengths.
fn lines(rt: &impl Print) -> io::Result<()> {
    line(rt, b" 4096  512\n")?;
    line(rt, b" 4097  512\n")?;
    line(rt, b" 4096  513\n")?;
    line(rt, b"    0    1\n")?;
    line(rt, b"    0    0\n")?;
    line(rt, b"99999    0\n")?;
    line(rt, b"    065535\n")?;
    line(rt, b"    065536\n")?;
    line(rt, b"         0\n")?;
    line(rt, b"4294967295\n")?;
    line(rt, b"4294967296\n")?;
    line(rt, b"         7\r")?;
    line(rt, b"         7")?;
    line(rt, b"")
}

// Lines written into a buffer that is full of dots: what is written, and the dots before and after it.
fn written(rt: &impl Print) -> io::Result<()> {
    let mut buffer = [b'.'; 36];
    lines::write_pair_line(&mut buffer, 1, 4096, 512);
    lines::write_tag_line(&mut buffer, 12, 4294967295);
    lines::write_tag_line(&mut buffer, 23, 0);
    report::words(rt, &buffer)?;
    report::words(rt, b"\n")?;
    lines::write_field(&mut buffer, 0, 5, 0);
    lines::write_field(&mut buffer, 34, 2, 7);
    report::words(rt, &buffer)?;
    report::words(rt, b"\n")?;
    // The longest tag of eight digits and the first of nine, and one with every digit.
    lines::write_tag_line(&mut buffer, 0, 99999999);
    lines::write_tag_line(&mut buffer, 11, 100000000);
    lines::write_tag_line(&mut buffer, 22, 1234567890);
    report::words(rt, &buffer)?;
    report::words(rt, b"\n")
}

// The width of a number, its last digits in five columns, and its tag line.
fn wide(rt: &impl Print, n: u32) -> io::Result<()> {
    report::number(rt, n as u64)?;
    report::words(rt, b" has width ")?;
    report::number(rt, digits::width_of(n) as u64)?;
    report::words(rt, b": \"")?;
    let mut field = [b'.'; 5];
    lines::write_field(&mut field, 0, 5, n);
    report::words(rt, &field)?;
    report::words(rt, b"\", line ")?;
    let mut line = [b'.'; 11];
    lines::write_tag_line(&mut line, 0, n);
    report::words(rt, &line)
}

// The first number of each width and the last, up to the greatest. From six columns on five keep the last digits.
fn widths(rt: &impl Print) -> io::Result<()> {
    wide(rt, 0)?;
    wide(rt, 1)?;
    wide(rt, 9)?;
    wide(rt, 10)?;
    wide(rt, 99)?;
    wide(rt, 100)?;
    wide(rt, 999)?;
    wide(rt, 1000)?;
    wide(rt, 9999)?;
    wide(rt, 10000)?;
    wide(rt, 99999)?;
    wide(rt, 100000)?;
    wide(rt, 999999)?;
    wide(rt, 1000000)?;
    wide(rt, 9999999)?;
    wide(rt, 10000000)?;
    wide(rt, 99999999)?;
    wide(rt, 100000000)?;
    wide(rt, 999999999)?;
    wide(rt, 1000000000)?;
    wide(rt, 4294967295)
}

fn main(rt: HostRuntime) -> io::Result<()> {
    fields(&rt)?;
    lines(&rt)?;
    written(&rt)?;
    widths(&rt)
}
