// Runs checking and lookup of small images without tags, whole and damaged: each refusal and each rule for its place.
#![tactic(auto)]

use lookup::LookupAnswer;
use std::io;

fn look_up(rt: &impl Print, image: &[u8], tag: u32) -> io::Result<()> {
    report::words(rt, b"  lookup of ")?;
    report::number(rt, tag as u64)?;
    report::words(rt, b": ")?;
    match tagless_lookup::tagless_lookup(image, tag) {
        LookupAnswer::Number(j) => report::number(rt, j as u64)?,
        LookupAnswer::Unknown => report::words(rt, b"unknown")?,
        LookupAnswer::Refused(refusal) => report::refusal(rt, refusal)?,
    }
    report::words(rt, b"\n")
}

// Prints the case's name, what checking says of the image, and lookups of the tags 0 to 4 in it.
fn image(rt: &impl Print, name: &[u8], image: &[u8]) -> io::Result<()> {
    report::words(rt, name)?;
    report::words(rt, b": ")?;
    match tagless_checking::tagless_check(image) {
        Ok(()) => report::words(rt, b"accepted")?,
        Err(refusal) => report::refusal(rt, refusal)?,
    }
    report::words(rt, b"\n")?;
    look_up(rt, image, 0)?;
    look_up(rt, image, 1)?;
    look_up(rt, image, 2)?;
    look_up(rt, image, 3)?;
    look_up(rt, image, 4)
}

// Images that are accepted, among them seeds and words that building would not take.
fn accepted(rt: &impl Print) -> io::Result<()> {
    image(
        rt,
        b"whole case",
        b"    3    2\n    0    0         0\n    1    1         1\n",
    )?;
    image(
        rt,
        b"another word",
        b"    3    2\n    0    0         0\n    1    14294967295\n",
    )?;
    image(
        rt,
        b"the last seed",
        b"    3    2\n    0    0         0\n    165535  12345678\n",
    )?;
    image(rt, b"empty list", b"    0    1\n    0    0         0\n")?;
    image(
        rt,
        b"empty groups with seeds and words",
        b"    0    2\n    0    5         9\n    0655354294967295\n",
    )?;
    image(rt, b"group of 32", b"   32    1\n    0   141234567890\n")
}

// 11, and 12 at line 0.
fn lengths(rt: &impl Print) -> io::Result<()> {
    image(rt, b"no bytes", b"")?;
    image(rt, b"ten bytes", b"    3    2")?;
    image(
        rt,
        b"header with B = 0",
        b"    3    0\n    0    0         0\n    1    1         1\n",
    )?;
    image(
        rt,
        b"header with N = 4097",
        b" 4097    2\n    0    0         0\n    1    1         1\n",
    )?;
    image(
        rt,
        b"one byte short",
        b"    3    2\n    0    0         0\n    1    1         1",
    )?;
    image(
        rt,
        b"one line more",
        b"    3    2\n    0    0         0\n    1    1         1\n    3    0         0\n",
    )?;
    image(
        rt,
        b"an image with tags",
        b"    3    2\n    0    0\n    1    1\n         2\n         1\n         3\n",
    )
}

// 12 at a group line.
fn group_lines(rt: &impl Print) -> io::Result<()> {
    image(
        rt,
        b"own line malformed",
        b"    3    2\n    0   00         0\n    1    1         1\n",
    )?;
    image(
        rt,
        b"next line malformed",
        b"    3    2\n    0    0         0\n    1              1\n",
    )
}

// A line is malformed if its word is; of two malformed lines the first.
fn words(rt: &impl Print) -> io::Result<()> {
    image(
        rt,
        b"word 4294967296",
        b"    3    2\n    0    04294967296\n    1    1         1\n",
    )?;
    image(
        rt,
        b"next word 4294967296",
        b"    3    2\n    0    0         0\n    1    14294967296\n",
    )?;
    image(
        rt,
        b"next word 9999999999",
        b"    3    2\n    0    0         0\n    1    19999999999\n",
    )?;
    image(
        rt,
        b"blank word",
        b"    3    2\n    0    0         0\n    1    1          \n",
    )?;
    image(
        rt,
        b"word with a needless zero",
        b"    3    2\n    0    0        00\n    1    1         1\n",
    )?;
    image(
        rt,
        b"seed 65536",
        b"    3    2\n    0    0         0\n    165536         1\n",
    )?;
    image(
        rt,
        b"two lines malformed",
        b"    3    2\n    0    0         x\n    1    1         1\r",
    )
}

// 13: the first group, a start that falls, a group too large, an end past N; behind 12.
fn faulty_groups(rt: &impl Print) -> io::Result<()> {
    image(
        rt,
        b"first start 1",
        b"    3    2\n    1    0         0\n    1    1         1\n",
    )?;
    image(
        rt,
        b"start past N",
        b"    3    2\n    0    0         0\n    4    1         1\n",
    )?;
    image(
        rt,
        b"start 99999",
        b"    3    2\n    0    0         0\n99999    1         1\n",
    )?;
    image(
        rt,
        b"starts that fall",
        b"    3    3\n    0    0         0\n    3    1         1\n    2    0         0\n",
    )?;
    image(rt, b"group of 33", b"   33    1\n    0    0         0\n")?;
    image(
        rt,
        b"malformed behind a faulty group",
        b"    3    2\n    1    0         0\n    1    14294967296\n",
    )
}

// Starts that building would not write, and empty groups.
fn other_starts(rt: &impl Print) -> io::Result<()> {
    image(
        rt,
        b"starts moved",
        b"    3    2\n    0    0         0\n    2    1         1\n",
    )?;
    image(
        rt,
        b"first group empty",
        b"    3    2\n    0    0         0\n    0    1         1\n",
    )?;
    image(
        rt,
        b"last group empty",
        b"    3    2\n    0    0         0\n    3    1         1\n",
    )
}

fn main(rt: HostRuntime) -> io::Result<()> {
    accepted(&rt)?;
    lengths(&rt)?;
    group_lines(&rt)?;
    words(&rt)?;
    faulty_groups(&rt)?;
    other_starts(&rt)
}
