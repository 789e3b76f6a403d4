// Runs eight functions of the C boundary: checking and lookup, the strict check, placing, counting parts, and those of an index without
// tags. Each answer is printed as the number that C gets.
#![tactic(auto)]

use std::io;

// Prints the case's name and an answer.
fn answer(rt: &impl Print, name: &[u8], r: u64) -> io::Result<()> {
    report::words(rt, name)?;
    report::words(rt, b": ")?;
    report::number(rt, r)?;
    report::words(rt, b"\n")
}

// Prints what stands in the cell that placing was lent.
fn cell(rt: &impl Print, word: &[u32; 1]) -> io::Result<()> {
    report::words(rt, b"  cell")?;
    report::numbers(rt, word)?;
    report::words(rt, b"\n")
}

// Places a group, lending a cell that holds 77, and prints the answer and the cell.
fn place(rt: &impl Print, name: &[u8], tags: &[u32], limit: u32) -> io::Result<()> {
    let mut word: [u32; 1] = [77];
    answer(
        rt,
        name,
        tag_index::tag_index_place_group(tags, limit, &mut word),
    )?;
    cell(rt, &word)
}

// Prints what counting parts answers.
fn count_parts(rt: &impl Print, name: &[u8], tags: &[u32], seed: u32) -> io::Result<()> {
    answer(rt, name, tag_index::tag_index_parts(tags, seed))
}

// Prints what checking answers, and lookups of the tags 0 to 4.
fn image(rt: &impl Print, name: &[u8], image: &[u8]) -> io::Result<()> {
    answer(rt, name, tag_index::tag_index_check(image))?;
    answer(rt, b"  lookup of 0", tag_index::tag_index_lookup(image, 0))?;
    answer(rt, b"  lookup of 1", tag_index::tag_index_lookup(image, 1))?;
    answer(rt, b"  lookup of 2", tag_index::tag_index_lookup(image, 2))?;
    answer(rt, b"  lookup of 3", tag_index::tag_index_lookup(image, 3))?;
    answer(rt, b"  lookup of 4", tag_index::tag_index_lookup(image, 4))
}

// Prints what the strict check answers.
fn strict(rt: &impl Print, name: &[u8], image: &[u8]) -> io::Result<()> {
    answer(rt, name, tag_index::tag_index_strict_check(image))
}

// Builds an index without tags from a text into a buffer of 77 bytes, and prints the answer and the buffer.
fn tagless_build(rt: &impl Print, name: &[u8], text: &[u8]) -> io::Result<()> {
    let mut image = [b'.'; 77];
    answer(
        rt,
        name,
        tag_index::tag_index_tagless_build(text, &mut image),
    )?;
    report::words(rt, &image)?;
    report::words(rt, b"\n")
}

// Prints what a lookup in an index without tags answers.
fn tagless_lookup(rt: &impl Print, name: &[u8], image: &[u8], tag: u32) -> io::Result<()> {
    answer(rt, name, tag_index::tag_index_tagless_lookup(image, tag))
}

// Prints what checking an index without tags answers, and lookups of the tags 0, 1 and 2.
fn tagless_image(rt: &impl Print, name: &[u8], image: &[u8]) -> io::Result<()> {
    answer(rt, name, tag_index::tag_index_tagless_check(image))?;
    tagless_lookup(rt, b"  lookup of 0", image, 0)?;
    tagless_lookup(rt, b"  lookup of 1", image, 1)?;
    tagless_lookup(rt, b"  lookup of 2", image, 2)
}

// The image of the whole case, and damaged ones: 11, 12 and 13;
fn images(rt: &impl Print) -> io::Result<()> {
    image(
        rt,
        b"whole image",
        b"    3    2\n    0    0\n    1    1\n         2\n         1\n         3\n",
    )?;
    image(rt, b"no bytes", b"")?;
    image(
        rt,
        b"last slot malformed",
        b"    3    2\n    0    0\n    1    1\n         2\n         1\n        03\n",
    )?;
    image(
        rt,
        b"start past N",
        b"    3    2\n    0    0\n    4    1\n         2\n         1\n         3\n",
    )
}

// 14, 15 and 17.
fn damaged_slots(rt: &impl Print) -> io::Result<()> {
    image(
        rt,
        b"tag of another group",
        b"    3    2\n    0    0\n    1    1\n         3\n         1\n         3\n",
    )?;
    image(
        rt,
        b"tag twice",
        b"    3    2\n    0    0\n    1    1\n         2\n         3\n         3\n",
    )?;
    image(
        rt,
        b"tag 0 in slot 0",
        b"    3    2\n    0    0\n    1    1\n         0\n         1\n         3\n",
    )?;
    image(
        rt,
        b"tag 0 in slot 2",
        b"    3    2\n    0    0\n    1    1\n         2\n         1\n         0\n",
    )
}

// Seeds and words, among them one with bit 31; each refusal of placing, which leaves the cell, and which of two comes first.
fn groups(rt: &impl Print) -> io::Result<()> {
    place(rt, b"worked value 3", &[1, 3], 2)?;
    place(rt, b"empty group", &[], 1)?;
    place(rt, b"tags with the same two places", &[599, 1193], 1)?;
    let tags = [
        89u32, 123, 157, 162, 164, 170, 188, 242, 328, 463, 546, 583, 618, 689, 703, 711, 735, 752,
        803, 880, 1009, 1142, 1164, 1196, 1326, 1339, 1399, 1469, 1556, 1618, 1681, 1705, 1706,
    ];
    place(rt, b"a path of 32 tags", &tags[..32], 1)?;
    place(rt, b"33 tags", &tags, 1)?;
    place(rt, b"33 tags, L = 0", &tags, 0)
}

// Refusals of few tags.
fn groups_refused(rt: &impl Print) -> io::Result<()> {
    place(rt, b"L = 0", &[1, 3], 0)?;
    place(rt, b"L = 65537", &[1, 3], 65537)?;
    place(rt, b"tag 5 after tag 9", &[3, 9, 5], 1)?;
    place(rt, b"tag 5 twice, L = 65537", &[5, 5], 65537)?;
    place(rt, b"tag 0 twice", &[0, 0], 1)?;
    place(rt, b"tag 0", &[0], 1)?;
    place(
        rt,
        b"tag 0 and another, a seed above 0 with L = 1",
        &[0, 13],
        1,
    )?;
    place(rt, b"a seed above 0 with L = 1", &[1, 3], 1)
}

// The whole case without tags, and refusals of reading and of building.
fn tagless_building(rt: &impl Print) -> io::Result<()> {
    tagless_build(
        rt,
        b"whole case without tags",
        b"    2    9\n         1\n         2\n         3\n",
    )?;
    tagless_build(
        rt,
        b"without tags, line 2 malformed",
        b"    2    9\n         1\n        02\n         3\n",
    )?;
    tagless_build(
        rt,
        b"without tags, buffer of 77 for an image of 95 bytes",
        b"    4    9\n         1\n         2\n         3\n",
    )?;
    tagless_build(
        rt,
        b"without tags, a seed above 0 with L = 1",
        b"    2    1\n         1\n         2\n         3\n",
    )
}

// The index of the whole case, and damaged ones: 11, 12 and 13.
fn tagless_images(rt: &impl Print) -> io::Result<()> {
    tagless_image(
        rt,
        b"whole image without tags",
        b"    3    2\n    0    0         0\n    1    1         1\n",
    )?;
    tagless_image(
        rt,
        b"without tags, last line missing",
        b"    3    2\n    0    0         0\n",
    )?;
    tagless_image(
        rt,
        b"without tags, word 4294967296 in line 2",
        b"    3    2\n    0    0         0\n    1    14294967296\n",
    )?;
    tagless_image(
        rt,
        b"without tags, start past N",
        b"    3    2\n    0    0         0\n    4    1         1\n",
    )?;
    tagless_image(
        rt,
        b"without tags, last group empty",
        b"    3    2\n    0    0         0\n    3    1         1\n",
    )
}

// The image of the whole case; no bytes; a malformed line, with seed 7 in group 0 besides;
fn strict_images(rt: &impl Print) -> io::Result<()> {
    strict(
        rt,
        b"strict check of the whole image",
        b"    3    2\n    0    0\n    1    1\n         2\n         1\n         3\n",
    )?;
    strict(rt, b"strict check of no bytes", b"")?;
    strict(
        rt,
        b"strict check, last slot malformed",
        b"    3    2\n    0    7\n    1    1\n         2\n         1\n        03\n",
    )
}

// the other refusals of checking, with that seed.
fn strict_refused(rt: &impl Print) -> io::Result<()> {
    strict(
        rt,
        b"strict check, tag 0 in slot 2",
        b"    3    2\n    0    7\n    1    1\n         2\n         1\n         0\n",
    )?;
    strict(
        rt,
        b"strict check, start past N",
        b"    3    2\n    0    7\n    4    1\n         2\n         1\n         3\n",
    )?;
    strict(
        rt,
        b"strict check, tag of another group",
        b"    3    2\n    0    7\n    1    1\n         2\n         1\n         2\n",
    )?;
    strict(
        rt,
        b"strict check, tag twice",
        b"    3    2\n    0    7\n    1    1\n         2\n         3\n         3\n",
    )
}

// 19 at either group: a later seed, another sequence, an empty group's seed.
fn edited_images(rt: &impl Print) -> io::Result<()> {
    strict(
        rt,
        b"strict check, seed 7 in group 0",
        b"    3    2\n    0    7\n    1    1\n         2\n         1\n         3\n",
    )?;
    strict(
        rt,
        b"strict check, group 1 under seed 2",
        b"    3    2\n    0    0\n    1    2\n         2\n         3\n         1\n",
    )?;
    strict(
        rt,
        b"strict check, tags with the same two places exchanged",
        b"    2    1\n    0    0\n      1193\n       599\n",
    )?;
    strict(
        rt,
        b"strict check, seed 1 in the last of 2 empty groups",
        b"    0    2\n    0    0\n    0    1\n",
    )
}

// A seed that serves, in one part, and one that does not, in two; the empty group; a number that is no seed; and 6 at its place.
fn parts(rt: &impl Print) -> io::Result<()> {
    count_parts(rt, b"parts under a seed that serves", &[1, 3], 1)?;
    count_parts(rt, b"parts under a seed that does not", &[1, 3], 0)?;
    count_parts(rt, b"parts of the empty group", &[], 65535)?;
    count_parts(rt, b"parts, seed 65536", &[1, 3], 65536)?;
    count_parts(rt, b"parts, tag 5 after tag 9", &[3, 9, 5], 0)
}

fn main(rt: HostRuntime) -> io::Result<()> {
    images(&rt)?;
    damaged_slots(&rt)?;
    groups(&rt)?;
    groups_refused(&rt)?;
    tagless_building(&rt)?;
    tagless_images(&rt)?;
    strict_images(&rt)?;
    strict_refused(&rt)?;
    edited_images(&rt)?;
    parts(&rt)
}
