// Runs cases of building an index without tags: each refusal and which of two comes first, and images byte by byte, with what checking
// and lookup say of them.
#![tactic(auto)]

use lookup::LookupAnswer;
use std::io;

fn look_up(rt: &impl Print, image: &[u8], tag: u32) -> io::Result<()> {
    report::words(rt, b"  ")?;
    report::number(rt, tag as u64)?;
    report::words(rt, b": ")?;
    match tagless_lookup::tagless_lookup(image, tag) {
        LookupAnswer::Number(j) => report::number(rt, j as u64)?,
        LookupAnswer::Unknown => report::words(rt, b"unknown")?,
        LookupAnswer::Refused(refusal) => report::refusal(rt, refusal)?,
    }
    report::words(rt, b"\n")
}

fn check(rt: &impl Print, image: &[u8]) -> io::Result<()> {
    report::words(rt, b"  ")?;
    match tagless_checking::tagless_check(image) {
        Ok(()) => report::words(rt, b"accepted")?,
        Err(refusal) => report::refusal(rt, refusal)?,
    }
    report::words(rt, b"\n")
}

fn look_up_each(rt: &impl Print, image: &[u8], tags: &[u32]) -> io::Result<()> {
    for &tag in tags {
        look_up(rt, image, tag)?;
    }
    Ok(())
}

// What stands at the beginning of the buffer, up to 9 bytes behind the image; and checking and lookups in the image.
fn show(rt: &impl Print, buffer: &[u8], size: usize, tags: &[u32]) -> io::Result<()> {
    if buffer.len() < 9 {
        return Ok(());
    }
    if buffer.len() - 9 < size {
        return Ok(());
    }
    report::words(rt, &buffer[..size + 9])?;
    report::words(rt, b"\n")?;
    if size == 0 {
        return Ok(());
    }
    let image = &buffer[..size];
    check(rt, image)?;
    look_up_each(rt, image, tags)?;
    look_up(rt, image, 0)?;
    look_up(rt, image, 77)
}

// Prints what building answers for the buffer's first `room` bytes, and how many bytes it wrote.
fn build_into(
    rt: &impl Print,
    tags: &[u32],
    groups: u32,
    limit: u32,
    room: usize,
    buffer: &mut [u8],
) -> io::Result<usize> {
    if buffer.len() < room {
        return Ok(0);
    }
    match tagless_building::tagless_build(tags, groups, limit, &mut buffer[..room]) {
        Ok(size) => {
            report::number(rt, size as u64)?;
            report::words(rt, b" bytes\n")?;
            Ok(size)
        }
        Err(refusal) => {
            report::refusal(rt, refusal)?;
            report::words(rt, b"\n")?;
            Ok(0)
        }
    }
}

// Builds into the first `room` bytes of a buffer that is full of '#', and shows the answer, the image, and what stands behind it.
fn build(rt: &impl Print, tags: &[u32], groups: u32, limit: u32, room: usize) -> io::Result<()> {
    report::words(rt, b"tags")?;
    report::numbers(rt, tags)?;
    report::words(rt, b", B ")?;
    report::number(rt, groups as u64)?;
    report::words(rt, b", L ")?;
    report::number(rt, limit as u64)?;
    report::words(rt, b", room ")?;
    report::number(rt, room as u64)?;
    report::words(rt, b": ")?;
    let mut buffer = [b'#'; 1200];
    let size = build_into(rt, tags, groups, limit, room, &mut buffer)?;
    show(rt, &buffer, size, tags)
}

// The whole case of document 01, without tags: a buffer that is too short by one byte, exact, and longer.
fn whole_case(rt: &impl Print) -> io::Result<()> {
    build(rt, &[1, 2, 3], 2, 9, 52)?;
    build(rt, &[1, 2, 3], 2, 9, 53)?;
    build(rt, &[1, 2, 3], 2, 9, 60)
}

// Empty lists, one tag, two.
fn small_lists(rt: &impl Print) -> io::Result<()> {
    build(rt, &[], 1, 1, 32)?;
    build(rt, &[], 3, 65536, 80)?;
    build(rt, &[7], 1, 1, 32)?;
    build(rt, &[1, 2], 1, 1, 32)?;
    build(rt, &[1, 3], 1, 2, 32)?;
    build(rt, &[1, 3], 2, 9, 53)
}

// Equal places, tags at both ends, several groups with seeds and words of their own.
fn longer_lists(rt: &impl Print) -> io::Result<()> {
    build(rt, &[13, 2147483648], 1, 1, 32)?;
    build(rt, &[599, 1193], 1, 1, 32)?;
    build(rt, &[13, 57, 61], 1, 9, 32)?;
    build(rt, &[14, 337764173, 964266638, 2787973142], 1, 9, 32)?;
    build(rt, &[2, 4294967295], 50, 1, 1061)?;
    build(
        rt,
        &[10, 20, 30, 40, 50, 60, 70, 80, 90, 100, 110, 120, 130, 140],
        3,
        99,
        80,
    )?;
    build(
        rt,
        &[3, 7, 15, 31, 63, 127, 255, 511, 1023, 2047, 4095, 8191],
        2,
        99,
        60,
    )
}

// Seeds that serve and have no word: the search goes on, or 7 comes where placing would find a seed.
fn served_without_a_word(rt: &impl Print) -> io::Result<()> {
    build(rt, &[19, 24, 43], 1, 1, 32)?;
    build(rt, &[19, 24, 43], 1, 2, 32)?;
    build(rt, &[19, 24, 43], 1, 3, 32)?;
    build(
        rt,
        &[1073741824, 2147483648, 2684354560, 3758096384],
        1,
        9,
        32,
    )
}

// Multiples of 2^29, 2^28 and 2^26, whose rows leave bits of the word without effect.
fn multiples(rt: &impl Print) -> io::Result<()> {
    build(
        rt,
        &[536870912, 1073741824, 1610612736, 2147483648],
        1,
        1,
        32,
    )?;
    build(
        rt,
        &[
            268435456, 1610612736, 1879048192, 2684354560, 3489660928, 4026531840,
        ],
        1,
        3,
        32,
    )?;
    build(
        rt,
        &[
            268435456, 1073741824, 1342177280, 1610612736, 2147483648, 2415919104, 3489660928,
            3758096384,
        ],
        1,
        2,
        32,
    )?;
    build(
        rt,
        &[
            603979776, 1342177280, 1677721600, 1744830464, 1946157056, 2080374784, 3019898880,
            3221225472, 3892314112, 4093640704,
        ],
        1,
        3,
        32,
    )
}

// 32 tags: seeds 0 and 1 have no word, seed 2 has one.
fn as_many_as_a_group_holds(rt: &impl Print) -> io::Result<()> {
    let tags = [
        3u32, 5, 8, 23, 28, 49, 56, 57, 58, 65, 69, 94, 106, 109, 113, 115, 118, 123, 124, 132,
        142, 145, 197, 219, 227, 231, 232, 240, 249, 260, 262, 266,
    ];
    build(rt, &tags, 1, 2, 32)?;
    build(rt, &tags, 1, 3, 32)
}

// 8, 4 and 6, and which of two comes first.
fn arguments(rt: &impl Print) -> io::Result<()> {
    build(rt, &[1, 2, 3], 0, 9, 53)?;
    build(rt, &[1, 2, 3], 513, 9, 1200)?;
    build(rt, &[1, 2, 3], 4294967295, 0, 53)?;
    build(rt, &[1, 2, 3], 2, 0, 53)?;
    build(rt, &[1, 2, 3], 2, 65537, 53)?;
    build(rt, &[3, 2, 1], 2, 0, 0)?;
    build(rt, &[1, 2, 2], 2, 9, 53)?;
    build(rt, &[1, 2, 3, 0], 2, 9, 0)
}

// 17: behind 6, before 9.
fn unwired(rt: &impl Print) -> io::Result<()> {
    build(rt, &[0], 1, 1, 32)?;
    build(rt, &[0, 1, 3], 1, 1, 31)?;
    build(rt, &[0, 0], 1, 1, 32)
}

// 33 tags in one group: 17 before 10; and 9 before 7 and 10.
fn sizes(rt: &impl Print) -> io::Result<()> {
    let tags = [
        0u32, 1, 2, 3, 4, 5, 6, 7, 8, 9, 10, 11, 12, 13, 14, 15, 16, 17, 18, 19, 20, 21, 22, 23,
        24, 25, 26, 27, 28, 29, 30, 31, 32, 33,
    ];
    build(rt, &tags[..33], 1, 9, 32)?;
    build(rt, &[1, 3], 1, 1, 31)?;
    build(rt, &[1, 3], 1, 1, 32)?;
    build(rt, &tags[1..], 1, 1, 31)?;
    build(rt, &tags[1..], 1, 1, 32)
}

// 33 tags in group 1, beside a group 0 that seed 0 does not serve: 10 before 7.
fn one_large_group(rt: &impl Print) -> io::Result<()> {
    let tags = [
        1u32, 3, 4, 5, 7, 9, 11, 12, 13, 15, 17, 19, 21, 22, 24, 26, 28, 30, 32, 34, 36, 38, 40,
        42, 45, 47, 49, 51, 53, 55, 57, 59, 61, 63, 66,
    ];
    build(rt, &tags, 2, 1, 53)?;
    build(rt, &tags[..20], 2, 1, 53)
}

// 7 at the lowest group without a word.
fn no_seed(rt: &impl Print) -> io::Result<()> {
    build(
        rt,
        &[536870912, 1073741824, 1610612736, 2684354560, 3758096384],
        1,
        99,
        32,
    )?;
    build(rt, &[5, 8, 13, 16], 3, 1, 74)?;
    build(rt, &[1, 2, 3], 2, 1, 53)?;
    build(rt, &[17, 23, 34, 40, 42, 45, 48, 51, 57], 3, 2, 74)
}

fn main(rt: HostRuntime) -> io::Result<()> {
    whole_case(&rt)?;
    small_lists(&rt)?;
    longer_lists(&rt)?;
    served_without_a_word(&rt)?;
    multiples(&rt)?;
    as_many_as_a_group_holds(&rt)?;
    arguments(&rt)?;
    unwired(&rt)?;
    sizes(&rt)?;
    one_large_group(&rt)?;
    no_seed(&rt)
}
