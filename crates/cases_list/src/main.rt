// Runs cases of reading a list: each refusal at each of its places, and the cells afterwards.
#![tactic(auto)]

use std::io;

// Reads the text into the cells, and prints the answer and the cells.
fn read(rt: &impl Print, text: &[u8], cells: &mut [u32]) -> io::Result<()> {
    match list::read_list(text, cells) {
        Ok(listed) => {
            report::words(rt, b"B ")?;
            report::number(rt, listed.groups as u64)?;
            report::words(rt, b", L ")?;
            report::number(rt, listed.limit as u64)?;
            report::words(rt, b", count ")?;
            report::number(rt, listed.count as u64)?;
        }
        Err(refusal) => report::refusal(rt, refusal)?,
    }
    report::words(rt, b"; cells")?;
    report::numbers(rt, cells)?;
    report::words(rt, b"\n")
}

// Five cells, three, two or none, each with 7 in it.
fn into_five(rt: &impl Print, text: &[u8]) -> io::Result<()> {
    let mut cells: [u32; 5] = [7; 5];
    read(rt, text, &mut cells)
}

fn into_three(rt: &impl Print, text: &[u8]) -> io::Result<()> {
    let mut cells: [u32; 3] = [7; 3];
    read(rt, text, &mut cells)
}

fn into_two(rt: &impl Print, text: &[u8]) -> io::Result<()> {
    let mut cells: [u32; 2] = [7; 2];
    read(rt, text, &mut cells)
}

fn into_none(rt: &impl Print, text: &[u8]) -> io::Result<()> {
    let mut cells: [u32; 0] = [];
    read(rt, text, &mut cells)
}

fn accepted(rt: &impl Print) -> io::Result<()> {
    into_five(rt, b"    2    9\n         1\n         2\n         3\n")?;
    into_three(rt, b"    2    9\n         1\n         2\n         3\n")?;
    into_none(rt, b"    1    1\n")?;
    into_three(rt, b"99999    0\n4294967295\n         0\n")?;
    // Reading takes tag 0 as any other.
    into_three(rt, b"    2    9\n         0\n         1\n")
}

// 16 at place 0, 16 at the first malformed line, 9; and that a malformed line comes before a lack of cells.
fn refused(rt: &impl Print) -> io::Result<()> {
    into_five(rt, b"")?;
    into_five(rt, b"    2    9")?;
    into_five(rt, b"    2    9\n         1\n ")?;
    into_five(rt, b"    2     \n         1\n")?;
    into_five(rt, b"00002    9\n         1\n")?;
    into_five(rt, b"    2    9\n         1\n        2 \n         x\n")?;
    into_five(rt, b"    2    9\n         1\n         2\n4294967296\n")?;
    into_five(rt, b"    2    9\n         1\n          \n")?;
    into_five(rt, b"    2    9\n         1\n         2\r         3\n")?;
    into_two(rt, b"    2    9\n         1\n         2\n         3\n")?;
    into_two(rt, b"    2    9\n         1\n         2\n        03\n")?;
    into_none(rt, b"    2    9\n         1\n")
}

fn main(rt: HostRuntime) -> io::Result<()> {
    accepted(&rt)?;
    refused(&rt)
}
