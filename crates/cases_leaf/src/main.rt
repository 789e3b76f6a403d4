// Runs chosen cases of the leaf crates: place of one tag, at the ranges' ends and beyond them.
#![tactic(auto)]

use std::io;

fn place(rt: &impl Print, n: u32, seed: u32, choice: u32, tag: u32) -> io::Result<()> {
    report::words(rt, b"place of ")?;
    report::number(rt, tag as u64)?;
    report::words(rt, b" among ")?;
    report::number(rt, n as u64)?;
    report::words(rt, b", seed ")?;
    report::number(rt, seed as u64)?;
    report::words(rt, b", choice ")?;
    report::number(rt, choice as u64)?;
    report::words(rt, b": ")?;
    match hash::place_of_one_tag(n, seed, choice, tag) {
        Ok(p) => report::number(rt, p as u64)?,
        Err(r) => report::refusal(rt, r)?,
    }
    report::words(rt, b"\n")
}

fn group(rt: &impl Print, groups: u32, tag: u32) -> io::Result<()> {
    report::words(rt, b"group of ")?;
    report::number(rt, tag as u64)?;
    report::words(rt, b" among ")?;
    report::number(rt, groups as u64)?;
    report::words(rt, b": ")?;
    report::number(rt, hash::group_of(groups, tag) as u64)?;
    report::words(rt, b"\n")
}

// Worked values 1 and 3, and the ends of each range; place of one tag takes tag 0.
fn places(rt: &impl Print) -> io::Result<()> {
    place(rt, 2, 0, 0, 1)?;
    place(rt, 2, 0, 0, 2)?;
    place(rt, 2, 1, 0, 1)?;
    place(rt, 2, 1, 1, 1)?;
    place(rt, 2, 1, 0, 3)?;
    place(rt, 2, 1, 1, 3)?;
    place(rt, 24, 65535, 1, 4294967295)?;
    place(rt, 25, 65535, 1, 4294967295)?;
    place(rt, 31, 65535, 1, 4294967295)?;
    place(rt, 32, 65535, 1, 4294967295)?;
    place(rt, 32, 0, 0, 47)?;
    place(rt, 32, 0, 1, 47)?;
    place(rt, 1, 0, 0, 0)?;
    place(rt, 32, 65535, 1, 0)
}

// The refusals 1, 2, 3, and that the first condition met decides.
fn refusals(rt: &impl Print) -> io::Result<()> {
    place(rt, 0, 0, 0, 7)?;
    place(rt, 33, 0, 0, 7)?;
    place(rt, 4294967295, 4294967295, 4294967295, 7)?;
    place(rt, 32, 65536, 0, 7)?;
    place(rt, 32, 65536, 2, 7)?;
    place(rt, 32, 65535, 2, 7)
}

// Worked value 8, and the ends of the group count.
fn groups(rt: &impl Print) -> io::Result<()> {
    group(rt, 2, 1)?;
    group(rt, 2, 2)?;
    group(rt, 2, 3)?;
    group(rt, 1, 4294967295)?;
    group(rt, 512, 4294967295)?;
    group(rt, 512, 0)
}

fn main(rt: HostRuntime) -> io::Result<()> {
    places(&rt)?;
    refusals(&rt)?;
    groups(&rt)
}
