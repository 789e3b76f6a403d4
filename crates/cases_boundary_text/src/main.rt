// Runs building, planning and writing over the C boundary, from list texts: the whole case of document 01, and refusals of each. Each
// answer is printed as the number that C gets.
#![tactic(auto)]

use std::io;

// Prints the case's name and an answer.
fn answer(rt: &impl Print, name: &[u8], r: u64) -> io::Result<()> {
    report::words(rt, name)?;
    report::words(rt, b": ")?;
    report::number(rt, r)?;
    report::words(rt, b"\n")
}

// Builds from a text into a buffer of 77 bytes, and prints the answer and the buffer.
fn build(rt: &impl Print, name: &[u8], text: &[u8]) -> io::Result<()> {
    let mut image = [b'.'; 77];
    answer(rt, name, tag_index::tag_index_build(text, &mut image))?;
    report::words(rt, &image)?;
    report::words(rt, b"\n")
}

// Prints what stands in the cells that planning was lent.
fn plan_cells(rt: &impl Print, cells: &[u32; 513]) -> io::Result<()> {
    report::words(rt, b"  cells")?;
    report::numbers(rt, cells)?;
    report::words(rt, b"\n")
}

// Plans from a text into cells that all hold 9, and prints the answer and all cells.
fn plan(rt: &impl Print, name: &[u8], text: &[u8]) -> io::Result<()> {
    let mut cells = [9u32; 513];
    answer(rt, name, tag_index::tag_index_plan(text, &mut cells))?;
    plan_cells(rt, &cells)
}

// Writes the tags of a text with a plan of two seeds, behind which all cells hold 4,294,967,295, into a buffer of 77 bytes.
fn write(
    rt: &impl Print,
    name: &[u8],
    text: &[u8],
    groups: u32,
    first: u32,
    second: u32,
) -> io::Result<()> {
    let mut cells = [4294967295u32; 513];
    cells[0] = groups;
    cells[1] = first;
    cells[2] = second;
    let mut image = [b'.'; 77];
    answer(
        rt,
        name,
        tag_index::tag_index_write(text, &cells, &mut image),
    )?;
    report::words(rt, &image)?;
    report::words(rt, b"\n")
}

// The whole case, and each refusal of building from a text that fits a line of this file.
fn building(rt: &impl Print) -> io::Result<()> {
    build(
        rt,
        b"whole case",
        b"    2    9\n         1\n         2\n         3\n",
    )?;
    build(rt, b"no bytes", b"")?;
    build(
        rt,
        b"line 2 malformed",
        b"    2    9\n         1\n        02\n         3\n",
    )?;
    build(rt, b"B = 0", b"    0    9\n         1\n")?;
    build(rt, b"L = 0", b"    2    0\n         1\n")
}

// And those that go by the tags and the buffer.
fn building_refused(rt: &impl Print) -> io::Result<()> {
    build(
        rt,
        b"tag 2 after tag 3",
        b"    2    9\n         1\n         3\n         2\n",
    )?;
    build(
        rt,
        b"a list with tag 0",
        b"    2    9\n         0\n         1\n         2\n",
    )?;
    build(
        rt,
        b"buffer of 77 for an image of 88 bytes",
        b"    2    9\n         1\n         2\n         3\n         4\n         5\n",
    )?;
    build(
        rt,
        b"a seed above 0 with L = 1",
        b"    2    1\n         1\n         2\n         3\n",
    )
}

// The whole case, and refusals of planning, reading's among them: each leaves zeros.
fn plans(rt: &impl Print) -> io::Result<()> {
    plan(
        rt,
        b"plan of the whole case",
        b"    2    9\n         1\n         2\n         3\n",
    )?;
    plan(rt, b"plan of no bytes", b"")?;
    plan(
        rt,
        b"plan, line 2 malformed",
        b"    2    9\n         1\n        02\n         3\n",
    )?;
    plan(rt, b"plan, B = 513", b"  513    9\n         1\n")?;
    plan(rt, b"plan, L = 65537", b"    265537\n         1\n")
}

// And those that go by the tags.
fn plans_refused(rt: &impl Print) -> io::Result<()> {
    plan(
        rt,
        b"plan, tag 2 after tag 3",
        b"    2    9\n         1\n         3\n         2\n",
    )?;
    plan(
        rt,
        b"plan, a list with tag 0",
        b"    2    9\n         0\n         1\n         2\n",
    )?;
    plan(
        rt,
        b"plan, seeds 1 and 2 with L = 2",
        b"    2    2\n         1\n         3\n         4\n         9\n        12\n",
    )
}

// The whole case under its plan, whatever B and L the text has, and under another; and refusals, reading's first.
fn writing(rt: &impl Print) -> io::Result<()> {
    write(
        rt,
        b"writing of the whole case",
        b"    2    9\n         1\n         2\n         3\n",
        2,
        0,
        1,
    )?;
    write(
        rt,
        b"writing, the text's B and L are 0 and 99999",
        b"    099999\n         1\n         2\n         3\n",
        2,
        65535,
        3,
    )?;
    write(rt, b"writing of no bytes, B = 0", b"", 0, 0, 0)?;
    write(
        rt,
        b"writing, the text's B malformed, B = 513",
        b"   02    9\n         1\n",
        513,
        0,
        0,
    )?;
    write(
        rt,
        b"writing, B = 513",
        b"    2    9\n         1\n",
        513,
        65536,
        0,
    )
}

// Refusals of writing itself, by the plan, the list and the buffer.
fn writing_refused(rt: &impl Print) -> io::Result<()> {
    write(
        rt,
        b"writing, seed 65536 in group 1, tag 2 after tag 3",
        b"    2    9\n         1\n         3\n         2\n",
        2,
        0,
        65536,
    )?;
    write(
        rt,
        b"writing, tag 2 after tag 3",
        b"    2    9\n         1\n         3\n         2\n",
        2,
        0,
        1,
    )?;
    write(
        rt,
        b"writing, a list with tag 0",
        b"    2    9\n         0\n         1\n         2\n",
        2,
        0,
        1,
    )?;
    write(
        rt,
        b"writing, buffer of 77 for an image of 88 bytes",
        b"    2    9\n         1\n         2\n         3\n         4\n         5\n",
        2,
        0,
        0,
    )?;
    write(
        rt,
        b"writing, seed 0 does not serve group 1",
        b"    2    9\n         1\n         2\n         3\n",
        2,
        0,
        0,
    )
}

// The longest text that is examined, with its last line malformed;
fn longest_text(rt: &impl Print) -> io::Result<()> {
    let mut image = [b'.'; 66];
    let mut longest = [b' '; 65527];
    report::number_lines(&mut longest);
    answer(
        rt,
        b"5956 tags",
        tag_index::tag_index_build(&longest, &mut image),
    )?;
    longest[65526] = b' ';
    answer(
        rt,
        b"last of 5957 lines malformed",
        tag_index::tag_index_build(&longest, &mut image),
    )
}

// and one byte more.
fn longer_text(rt: &impl Print) -> io::Result<()> {
    let mut image = [b'.'; 66];
    let longer = [b' '; 65528];
    answer(
        rt,
        b"65528 bytes",
        tag_index::tag_index_build(&longer, &mut image),
    )?;
    plan(rt, b"plan of 65528 bytes", &longer)?;
    write(rt, b"writing of 65528 bytes, B = 0", &longer, 0, 0, 0)
}

fn main(rt: HostRuntime) -> io::Result<()> {
    building(&rt)?;
    building_refused(&rt)?;
    plans(&rt)?;
    plans_refused(&rt)?;
    writing(&rt)?;
    writing_refused(&rt)?;
    longest_text(&rt)?;
    longer_text(&rt)
}
