// Runs cases of building: worked values 4, 5, 6, 10, 11 and 12, each refusal and which of two comes first, and images byte by byte,
// with what checking and lookup say of them.
#![tactic(auto)]

use lookup::LookupAnswer;
use std::io;

fn look_up(rt: &impl Print, image: &[u8], tag: u32) -> io::Result<()> {
    report::words(rt, b"  ")?;
    report::number(rt, tag as u64)?;
    report::words(rt, b": ")?;
    match lookup::lookup(image, tag) {
        LookupAnswer::Number(j) => report::number(rt, j as u64)?,
        LookupAnswer::Unknown => report::words(rt, b"unknown")?,
        LookupAnswer::Refused(refusal) => report::refusal(rt, refusal)?,
    }
    report::words(rt, b"\n")
}

fn check(rt: &impl Print, image: &[u8]) -> io::Result<()> {
    report::words(rt, b"  ")?;
    match checking::check_image(image) {
        Ok(()) => report::words(rt, b"accepted")?,
        Err(refusal) => report::refusal(rt, refusal)?,
    }
    report::words(rt, b"\n")
}

fn look_up_each(rt: &impl Print, image: &[u8], tags: &[u32]) -> io::Result<()> {
    for &tag in tags {
        look_up(rt, image, tag)?;
    }
    Ok(())
}

// What stands at the beginning of the buffer, up to 9 bytes behind the image; and checking and lookups in the image.
fn show(rt: &impl Print, buffer: &[u8], size: usize, tags: &[u32]) -> io::Result<()> {
    if buffer.len() < 9 {
        return Ok(());
    }
    if buffer.len() - 9 < size {
        return Ok(());
    }
    report::words(rt, &buffer[..size + 9])?;
    report::words(rt, b"\n")?;
    if size == 0 {
        return Ok(());
    }
    let image = &buffer[..size];
    check(rt, image)?;
    look_up_each(rt, image, tags)?;
    look_up(rt, image, 77)
}

// Prints what building answers for the buffer's first `room` bytes, and how many bytes it wrote.
fn build_into(
    rt: &impl Print,
    tags: &[u32],
    groups: u32,
    limit: u32,
    room: usize,
    buffer: &mut [u8],
) -> io::Result<usize> {
    if buffer.len() < room {
        return Ok(0);
    }
    let mut plan = [0u32; refusal::PLAN_CELLS];
    match building::build(tags, groups, limit, &mut plan, &mut buffer[..room]) {
        Ok(size) => {
            report::number(rt, size as u64)?;
            report::words(rt, b" bytes\n")?;
            Ok(size)
        }
        Err(refusal) => {
            report::refusal(rt, refusal)?;
            report::words(rt, b"\n")?;
            Ok(0)
        }
    }
}

// Builds into the first `room` bytes of a buffer that is full of '#', and shows the answer, the image, and what stands behind it.
fn build(rt: &impl Print, tags: &[u32], groups: u32, limit: u32, room: usize) -> io::Result<()> {
    report::words(rt, b"tags")?;
    report::numbers(rt, tags)?;
    report::words(rt, b", B ")?;
    report::number(rt, groups as u64)?;
    report::words(rt, b", L ")?;
    report::number(rt, limit as u64)?;
    report::words(rt, b", room ")?;
    report::number(rt, room as u64)?;
    report::words(rt, b": ")?;
    let mut buffer = [b'#'; 6000];
    let size = build_into(rt, tags, groups, limit, room, &mut buffer)?;
    show(rt, &buffer, size, tags)
}

// The whole case, worked value 11: a buffer that is too short by one byte, exact, and longer.
fn whole_case(rt: &impl Print) -> io::Result<()> {
    build(rt, &[1, 2, 3], 2, 9, 65)?;
    build(rt, &[1, 2, 3], 2, 9, 66)?;
    build(rt, &[1, 2, 3], 2, 9, 80)
}

// The starred values that are built, and others: empty lists, equal places, tags at both ends, several groups with seeds of their own.
fn images(rt: &impl Print) -> io::Result<()> {
    build(rt, &[], 1, 1, 22)?;
    build(rt, &[], 3, 65536, 50)?;
    build(rt, &[1, 2], 1, 1, 44)?;
    build(rt, &[1, 3], 1, 2, 44)?;
    build(rt, &[13, 2147483648], 1, 1, 44)?;
    build(rt, &[13, 1073741824], 1, 1, 44)?;
    build(rt, &[599, 1193], 1, 1, 44)?;
    build(rt, &[1, 908, 4294967295], 512, 1, 5676)?;
    build(rt, &[2, 4294967295], 5, 1, 100)?;
    build(rt, &[14, 337764173, 964266638, 2787973142], 1, 9, 90)?;
    build(
        rt,
        &[10, 20, 30, 40, 50, 60, 70, 80, 90, 100, 110, 120, 130, 140],
        3,
        65536,
        300,
    )?;
    build(
        rt,
        &[3, 7, 15, 31, 63, 127, 255, 511, 1023, 2047, 4095, 8191],
        2,
        999,
        300,
    )
}

// Each refusal, and which of two comes first: 8, 4, 5, 6, 10, 7, 9. 17 has cases of its own.
fn refusals(rt: &impl Print) -> io::Result<()> {
    build(rt, &[1, 2, 3], 0, 9, 66)?;
    build(rt, &[1, 2, 3], 513, 9, 6000)?;
    build(rt, &[1, 2, 3], 4294967295, 0, 600)?;
    build(rt, &[1, 2, 3], 2, 0, 66)?;
    build(rt, &[1, 2, 3], 2, 65536, 66)?;
    build(rt, &[1, 2, 3], 2, 65537, 66)?;
    build(rt, &[3, 2, 1], 2, 0, 0)?;
    build(rt, &[1, 2, 2], 2, 9, 66)?;
    build(rt, &[5, 5], 1, 1, 44)?;
    build(rt, &[1, 2, 3, 0], 2, 9, 0)?;
    build(rt, &[1, 3], 1, 1, 43)?;
    build(rt, &[1, 3], 1, 1, 44)?;
    build(rt, &[1, 3], 1, 2, 43)?;
    build(
        rt,
        &[536870912, 1073741824, 1610612736, 2684354560, 3758096384],
        1,
        200,
        77,
    )?;
    build(rt, &[5, 8, 13, 16], 3, 1, 88)?;
    build(rt, &[17, 23, 34, 40, 42, 45, 48, 51, 57], 3, 2, 143)?;
    build(rt, &[17, 23, 34, 40, 42, 45, 48, 51, 57], 3, 7, 143)?;
    build(rt, &[18, 20, 27, 34, 36, 40, 41, 43, 50], 3, 1, 143)
}

// 25 and 32 tags in one group are built, 33 are refused, also where the group is not the first; 10 comes before 7 and before 9.
fn sizes(rt: &impl Print) -> io::Result<()> {
    build(
        rt,
        &[
            1, 2, 3, 4, 5, 6, 7, 8, 9, 10, 11, 12, 13, 14, 15, 16, 17, 18, 19, 20, 21, 22, 26, 28,
            30,
        ],
        1,
        1,
        400,
    )?;
    let tags = [
        1u32, 2, 3, 4, 5, 6, 7, 8, 9, 10, 11, 12, 13, 14, 15, 16, 17, 18, 19, 20, 21, 22, 23, 24,
        25, 26, 28, 29, 32, 34, 43, 47, 48,
    ];
    build(rt, &tags[..32], 1, 1, 400)?;
    build(rt, &tags, 1, 1, 400)?;
    build(rt, &tags, 1, 1, 384)?;
    build(rt, &tags, 1, 1, 385)?;
    build(rt, &[1, 2, 3, 1, 2], 1, 1, 66)?;
    build(
        rt,
        &[
            1, 3, 4, 5, 7, 9, 11, 12, 13, 15, 17, 19, 21, 22, 24, 26, 28, 30, 32, 34, 36, 38, 40,
            42, 45, 47, 49, 51, 53, 55, 57, 59, 61, 63, 66,
        ],
        2,
        1,
        600,
    )
}

// Tag 0 is nobody's: 17 alone, worked values 4 and 5; before 9, before 10, and before 7, worked value 6; and behind 8, 4 and 6.
fn unwired(rt: &impl Print) -> io::Result<()> {
    build(rt, &[0], 1, 1, 33)?;
    build(rt, &[0, 2147483648], 1, 1, 44)?;
    build(rt, &[0, 1073741824], 1, 1, 44)?;
    build(rt, &[0, 1, 2], 2, 9, 66)?;
    build(rt, &[0, 1, 2], 2, 9, 65)?;
    build(
        rt,
        &[
            0, 1, 2, 3, 4, 5, 6, 7, 8, 9, 10, 11, 12, 13, 14, 15, 16, 17, 18, 19, 20, 21, 22, 23,
            24, 25, 26, 27, 28, 29, 30, 31, 32,
        ],
        1,
        9,
        600,
    )?;
    build(rt, &[0, 1073741824, 3221225472], 1, 9, 55)?;
    build(rt, &[0, 1, 3], 2, 1, 66)?;
    build(rt, &[0, 1, 2], 513, 9, 66)?;
    build(rt, &[0, 1, 2], 2, 0, 66)?;
    build(rt, &[0, 1, 2], 2, 65537, 66)?;
    build(rt, &[0, 0], 1, 1, 44)?;
    build(rt, &[0, 2, 1], 2, 9, 0)
}

fn main(rt: HostRuntime) -> io::Result<()> {
    whole_case(&rt)?;
    images(&rt)?;
    refusals(&rt)?;
    sizes(&rt)?;
    unwired(&rt)
}
