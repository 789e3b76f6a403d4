// Runs cases of placing a group: worked values 4, 5, 6, 10 and 12, the traps, groups of 32 tags, and each refusal.
#![tactic(auto)]

use std::io;

fn place(rt: &impl Print, tags: &[u32], limit: u32) -> io::Result<()> {
    report::words(rt, b"tags")?;
    report::numbers(rt, tags)?;
    report::words(rt, b", L ")?;
    report::number(rt, limit as u64)?;
    match placing::place_group(tags, limit) {
        Ok(placed) => {
            report::words(rt, b": seed ")?;
            report::number(rt, placed.seed as u64)?;
            report::words(rt, b", word ")?;
            report::number(rt, placed.word as u64)?;
        }
        Err(refusal) => {
            report::words(rt, b": ")?;
            report::refusal(rt, refusal)?;
        }
    }
    report::words(rt, b"\n")
}

// Groups that a mistaken search gets wrong: two chains that pass a tag twice; an eviction that does not end with the sequence taken;
// two tags of which the lower decides, so that the word is not the numerically least; a last tag whose first place is taken and
// second free, with fewer ones where others move, and with as many; a tag with equal places; an insertion that needs every eviction.
fn traps(rt: &impl Print) -> io::Result<()> {
    place(rt, &[13, 57, 61], 9)?;
    place(rt, &[81, 134, 298, 325], 1)?;
    place(rt, &[14, 337764173, 964266638, 2787973142], 9)?;
    place(rt, &[599, 1193], 1)?;
    place(rt, &[1, 2, 12], 1)?;
    place(rt, &[1, 5, 6, 11], 1)?;
    place(rt, &[24, 1445023297], 1)?;
    place(rt, &[6, 8, 33, 37, 39, 55], 99)?;
    place(rt, &[61, 152], 1)
}

// The seed limit: 0 and 65,537 are refused, 1 and 65,536 are legal.
fn limits(rt: &impl Print) -> io::Result<()> {
    place(rt, &[1, 3], 0)?;
    place(rt, &[1, 3], 1)?;
    place(rt, &[1, 3], 2)?;
    place(rt, &[1, 3], 65536)?;
    place(rt, &[1, 3], 65537)?;
    place(rt, &[1, 3], 4294967295)
}

// 24 and 25 tags, and 32 with close numbers, are placed, 33 do not pass to the search; the empty group; lists that do not ascend; and
// the order of the refusals.
fn sizes(rt: &impl Print) -> io::Result<()> {
    let tags = [
        3u32, 7, 15, 31, 63, 127, 255, 511, 1023, 2047, 4095, 8191, 16383, 32767, 65535, 131071,
        262143, 524287, 1048575, 2097151, 4194303, 8388607, 16777215, 33554431, 67108863,
    ];
    place(rt, &tags[..24], 65536)?;
    place(rt, &tags, 65536)?;
    let close = [
        1u32, 2, 3, 4, 5, 6, 7, 8, 9, 10, 11, 12, 13, 14, 15, 16, 17, 18, 19, 20, 21, 22, 23, 24,
        25, 26, 28, 29, 32, 34, 43, 47, 48,
    ];
    place(rt, &close[..32], 1)?;
    place(rt, &close, 65536)?;
    place(rt, &[], 1)?;
    place(rt, &[4294967295], 1)?;
    place(rt, &[5, 5], 1)?;
    place(rt, &[9, 5], 1)?;
    place(rt, &[1, 2, 3, 2, 1], 0)?;
    place(rt, &[1, 2, 3, 2, 1], 1)
}

// 32 tags that seed 0 serves. Each has the place of the one before and the next, the first one place: all others take their second,
// and the word has 31 ones above bit 0.
fn path(rt: &impl Print) -> io::Result<()> {
    place(
        rt,
        &[
            89, 123, 157, 162, 164, 170, 188, 242, 328, 463, 546, 583, 618, 689, 703, 711, 735,
            752, 803, 880, 1009, 1142, 1164, 1196, 1326, 1339, 1399, 1469, 1556, 1618, 1681, 1705,
        ],
        1,
    )
}

// The path from its other end: every tag has its first place until the last one comes, which moves them all: 31 evictions.
fn path_to_be_moved_along(rt: &impl Print) -> io::Result<()> {
    place(
        rt,
        &[
            34, 102, 162, 164, 170, 188, 242, 328, 463, 546, 583, 618, 689, 703, 711, 735, 752,
            803, 880, 1009, 1142, 1164, 1196, 1326, 1339, 1399, 1469, 1556, 1618, 1681, 1705, 1775,
        ],
        1,
    )
}

// A path of 30 places with a fork: the last tag's eviction goes down the path and comes back, 61 evictions of the 63 that there may be.
fn lollipop(rt: &impl Print) -> io::Result<()> {
    place(
        rt,
        &[
            89, 123, 191, 196, 321, 353, 415, 457, 528, 529, 579, 661, 695, 700, 702, 708, 726,
            814, 934, 1061, 1154, 1166, 1236, 1323, 1385, 1427, 1553, 1554, 1578, 1595, 1615, 1636,
        ],
        1,
    )
}

// A cycle of five with two ones, or three if that of the last tag, bit 31, is counted; three cycles of two with one either way, where
// the lowest tag decides; and two tags with equal places.
fn fewest_second_places(rt: &impl Print) -> io::Result<()> {
    place(
        rt,
        &[
            18, 38, 68, 107, 111, 128, 133, 159, 181, 197, 225, 229, 234, 272, 297, 332, 341, 368,
            393, 439, 468, 484, 518, 521, 535, 550, 579, 582, 593, 620, 636, 666,
        ],
        1,
    )
}

// A word with ones and zeros in every byte, and bit 31; tags with the same two places, and one with equal places.
fn all_kinds_of_bits(rt: &impl Print) -> io::Result<()> {
    place(
        rt,
        &[
            44, 46, 64, 75, 105, 113, 152, 177, 227, 258, 288, 312, 341, 355, 356, 383, 430, 454,
            474, 484, 501, 522, 557, 590, 594, 626, 635, 652, 670, 675, 705, 721,
        ],
        1,
    )
}

// Tag 0 is nobody's: 17 alone, worked values 4 and 5; before 7, worked value 6; and behind 4, 5 and 6. A 0 that is not first is 6.
fn unwired(rt: &impl Print) -> io::Result<()> {
    place(rt, &[0], 1)?;
    place(rt, &[0, 2147483648], 1)?;
    place(rt, &[0, 1073741824], 1)?;
    place(rt, &[0, 1073741824, 3221225472], 1)?;
    place(rt, &[0, 3], 0)?;
    place(rt, &[0, 3], 65537)?;
    let tags = [
        0u32, 1, 2, 3, 4, 5, 6, 7, 8, 9, 10, 11, 12, 13, 14, 15, 16, 17, 18, 19, 20, 21, 22, 23,
        24, 25, 26, 27, 28, 29, 30, 31, 32,
    ];
    place(rt, &tags, 65536)?;
    place(rt, &tags[..32], 65536)?;
    place(rt, &[0, 0], 1)?;
    place(rt, &[0, 7, 7], 9)?;
    place(rt, &[7, 0], 9)
}

fn main(rt: HostRuntime) -> io::Result<()> {
    traps(&rt)?;
    limits(&rt)?;
    sizes(&rt)?;
    path(&rt)?;
    path_to_be_moved_along(&rt)?;
    lollipop(&rt)?;
    all_kinds_of_bits(&rt)?;
    fewest_second_places(&rt)?;
    unwired(&rt)
}
