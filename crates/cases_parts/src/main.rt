// Runs cases of the second test of a seed, counting parts: worked values 1 to 3, untouched places, tags with equal places, tags with the
// same pair of places, parts that are joined, groups of 32 tags, and each refusal.
#![tactic(auto)]

use std::io;

fn number(rt: &impl Print, serves: &[u8], parts: u32) -> io::Result<()> {
    report::words(rt, serves)?;
    report::number(rt, parts as u64)
}

fn count(rt: &impl Print, tags: &[u32], seed: u32) -> io::Result<()> {
    report::words(rt, b"tags")?;
    report::numbers(rt, tags)?;
    report::words(rt, b", seed ")?;
    report::number(rt, seed as u64)?;
    match parts::count_parts(tags, seed) {
        Ok(parts) if parts.serves => number(rt, b": serves, parts ", parts.number)?,
        Ok(parts) => number(rt, b": does not serve, parts ", parts.number)?,
        Err(refusal) => {
            report::words(rt, b": ")?;
            report::refusal(rt, refusal)?;
        }
    }
    report::words(rt, b"\n")
}

// Worked values 1, 2 and 3; the empty group, and one tag, which is served by every seed.
fn worked(rt: &impl Print) -> io::Result<()> {
    count(rt, &[1, 2], 0)?;
    count(rt, &[1, 3], 0)?;
    count(rt, &[1, 3], 1)?;
    count(rt, &[], 0)?;
    count(rt, &[], 65535)?;
    count(rt, &[4294967295], 65535)
}

// A place that no tag has is a part by itself: one, two, and three of them.
fn untouched(rt: &impl Print) -> io::Result<()> {
    count(rt, &[10, 18, 20], 0)?;
    count(rt, &[1, 35, 37, 46], 1)?;
    count(rt, &[9, 21, 33, 55], 1)
}

// A tag with equal places is an edge: three parts of one place and one tag each; two such tags on one place; one on a cycle; and one on a
// tree, whose only cycle it is.
fn equal_places(rt: &impl Print) -> io::Result<()> {
    count(rt, &[5, 17, 21], 0)?;
    count(rt, &[5, 9, 13], 0)?;
    count(rt, &[1, 16, 26, 30], 1)?;
    count(rt, &[5, 10, 14], 0)
}

// Two tags with the same pair of places are a cycle; two such cycles; three tags on one pair, beside a tree.
fn same_pair(rt: &impl Print) -> io::Result<()> {
    count(rt, &[599, 1193], 0)?;
    count(rt, &[1, 5, 14, 18], 0)?;
    count(rt, &[1, 16, 35, 52], 1)
}

// The whole graph has as many edges as points. One part has an edge more, and the tree beside it one less; each has as many; and a part of
// two places has three tags.
fn part_by_part(rt: &impl Print) -> io::Result<()> {
    count(rt, &[1, 81, 83, 90, 128, 141], 1)?;
    count(rt, &[1, 81, 83, 143, 183, 196], 1)?;
    count(rt, &[34, 56, 59, 94, 107], 1)
}

// Two pairs of places become one part by the lowest tag or by a later one, by its first place or by its second.
fn joined(rt: &impl Print) -> io::Result<()> {
    count(rt, &[3, 35, 52, 68], 1)?;
    count(rt, &[10, 35, 52, 68], 1)?;
    count(rt, &[2, 16, 20, 21], 1)?;
    count(rt, &[1, 6, 15, 21], 1)
}

// A path of eight places in another order than its own, there and back; and a star.
fn joined_again(rt: &impl Print) -> io::Result<()> {
    count(rt, &[47, 98, 149, 221, 259, 276, 289, 377], 2)?;
    count(rt, &[97, 203, 224, 271, 309, 351, 364, 466], 2)?;
    count(rt, &[12, 24, 57, 78, 111, 123], 1)
}

// 32 tags that seed 0 serves, on a path.
fn path(rt: &impl Print) -> io::Result<()> {
    count(
        rt,
        &[
            89, 123, 157, 162, 164, 170, 188, 242, 328, 463, 546, 583, 618, 689, 703, 711, 735,
            752, 803, 880, 1009, 1142, 1164, 1196, 1326, 1339, 1399, 1469, 1556, 1618, 1681, 1705,
        ],
        0,
    )
}

// 32 tags that seed 0 serves, in five parts: some with the same pair of places, and one with equal places.
fn all_kinds(rt: &impl Print) -> io::Result<()> {
    count(
        rt,
        &[
            44, 46, 64, 75, 105, 113, 152, 177, 227, 258, 288, 312, 341, 355, 356, 383, 430, 454,
            474, 484, 501, 522, 557, 590, 594, 626, 635, 652, 670, 675, 705, 721,
        ],
        0,
    )
}

// 32 tags with equal places: 32 parts.
fn alone(rt: &impl Print) -> io::Result<()> {
    count(
        rt,
        &[
            949, 1364, 2351, 2690, 4664, 6638, 8612, 10586, 12560, 12937, 13924, 14301, 14678,
            15665, 16042, 16419, 17368, 17783, 18770, 19109, 19524, 20473, 20850, 22824, 24798,
            26772, 28746, 29123, 30110, 30487, 30864, 31851,
        ],
        8,
    )
}

// 31 and 32 tags are counted, and 33 refused, whether the first is 0 or not; a number that is no seed comes before that.
fn full(rt: &impl Print) -> io::Result<()> {
    let mut tags = [
        1u32, 2, 3, 4, 5, 6, 7, 8, 9, 10, 11, 12, 13, 14, 15, 16, 17, 18, 19, 20, 21, 22, 23, 24,
        25, 26, 27, 28, 29, 30, 31, 32, 33,
    ];
    count(rt, &tags[..32], 0)?;
    count(rt, &tags[..31], 65535)?;
    count(rt, &tags, 65535)?;
    count(rt, &tags, 65536)?;
    tags[0] = 0;
    count(rt, &tags, 0)?;
    count(rt, &tags[..32], 0)
}

// The last seed there is, and one more.
fn seeds(rt: &impl Print) -> io::Result<()> {
    count(rt, &[1, 3], 65535)?;
    count(rt, &[1, 3], 65536)?;
    count(rt, &[], 65536)
}

// Lists that do not ascend, at the first index where they do not; tag 0.
fn refused(rt: &impl Print) -> io::Result<()> {
    count(rt, &[5, 5], 0)?;
    count(rt, &[3, 9, 5, 4], 0)?;
    count(rt, &[0], 0)?;
    count(rt, &[0, 13], 65535)
}

// Two refusals due at once: 2 before 6 and 17, and 6 before 17.
fn two_refusals(rt: &impl Print) -> io::Result<()> {
    count(rt, &[5, 5], 65536)?;
    count(rt, &[0, 13], 65536)?;
    count(rt, &[0, 0], 0)?;
    count(rt, &[0, 13, 13], 0)
}

// 33 tags that do not ascend, and 32.
fn too_many(rt: &impl Print) -> io::Result<()> {
    let same = [5u32; 33];
    count(rt, &same, 0)?;
    count(rt, &same[..32], 0)
}

fn main(rt: HostRuntime) -> io::Result<()> {
    worked(&rt)?;
    untouched(&rt)?;
    equal_places(&rt)?;
    same_pair(&rt)?;
    part_by_part(&rt)?;
    joined(&rt)?;
    joined_again(&rt)?;
    path(&rt)?;
    all_kinds(&rt)?;
    alone(&rt)?;
    full(&rt)?;
    seeds(&rt)?;
    refused(&rt)?;
    two_refusals(&rt)?;
    too_many(&rt)
}
