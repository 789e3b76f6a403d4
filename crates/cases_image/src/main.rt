// Runs checking and lookup on small images, whole and damaged: each refusal and each rule for its place.
#![tactic(auto)]

use lookup::LookupAnswer;
use std::io;

fn look_up(rt: &impl Print, image: &[u8], tag: u32) -> io::Result<()> {
    report::words(rt, b"  lookup of ")?;
    report::number(rt, tag as u64)?;
    report::words(rt, b": ")?;
    match lookup::lookup(image, tag) {
        LookupAnswer::Number(j) => report::number(rt, j as u64)?,
        LookupAnswer::Unknown => report::words(rt, b"unknown")?,
        LookupAnswer::Refused(refusal) => report::refusal(rt, refusal)?,
    }
    report::words(rt, b"\n")
}

// Prints the case's name, what checking says of the image, and lookups of the tags 0 to 4 in it.
fn image(rt: &impl Print, name: &[u8], image: &[u8]) -> io::Result<()> {
    report::words(rt, name)?;
    report::words(rt, b": ")?;
    match checking::check_image(image) {
        Ok(()) => report::words(rt, b"accepted")?,
        Err(refusal) => report::refusal(rt, refusal)?,
    }
    report::words(rt, b"\n")?;
    look_up(rt, image, 0)?;
    look_up(rt, image, 1)?;
    look_up(rt, image, 2)?;
    look_up(rt, image, 3)?;
    look_up(rt, image, 4)
}

// The image of the whole case; the same with another seed and choice that also fit, and with a seed for an empty group.
fn accepted(rt: &impl Print) -> io::Result<()> {
    image(
        rt,
        b"whole case",
        b"    3    2\n    0    0\n    1    1\n         2\n         1\n         3\n",
    )?;
    image(
        rt,
        b"another seed",
        b"    3    2\n    0    7\n    1    1\n         2\n         1\n         3\n",
    )?;
    image(rt, b"empty list", b"    0    1\n    0    0\n")?;
    image(
        rt,
        b"empty group with a seed",
        b"    0    2\n    0    5\n    065535\n",
    )
}

// Groups of 25 and of 32 tags: as many as a group may hold.
fn large_groups(rt: &impl Print) -> io::Result<()> {
    image(
        rt,
        b"group of 25",
        b"   25    1
    0    0
        13
        26
        20
        18
        10
         2
         5
        28
         7
        11
        12
         4
        17
        30
         9
         1
        14
         6
        19
        22
        15
         3
        16
         8
        21
",
    )?;
    image(
        rt,
        b"group of 32",
        b"   32    1
    0    0
        34
        13
        26
        18
        47
        10
        23
         2
         5
        28
         7
        20
        11
        12
        25
         4
        17
         3
        43
        22
        14
         9
         6
        19
        32
        15
        24
         1
        16
        29
         8
        21
",
    )
}

// 11 and 12, and which comes first.
fn lines(rt: &impl Print) -> io::Result<()> {
    image(rt, b"no bytes", b"")?;
    image(rt, b"ten bytes", b"    3    2")?;
    image(
        rt,
        b"header with B = 0",
        b"    3    0\n    0    0\n    1    1\n         2\n         1\n         3\n",
    )?;
    image(
        rt,
        b"header with N = 4097",
        b" 4097    2\n    0    0\n    1    1\n         2\n         1\n         3\n",
    )?;
    image(
        rt,
        b"one byte short",
        b"    3    2\n    0    0\n    1    1\n         2\n         1\n         3",
    )?;
    image(
        rt,
        b"one line more",
        b"    3    2\n    0    0\n    1    1\n         2\n         1\n         3\n         4\n",
    )?;
    image(
        rt,
        b"own line malformed",
        b"    3    2\n    0   00\n    1    1\n         2\n         1\n         3\n",
    )?;
    image(
        rt,
        b"next line malformed",
        b"    3    2\n    0    0\n    1     \n         2\n         1\n         3\n",
    )?;
    image(
        rt,
        b"seed 65536",
        b"    3    2\n    0    0\n    165536\n         2\n         1\n         3\n",
    )?;
    image(
        rt,
        b"slot malformed",
        b"    3    2\n    0    0\n    1    1\n        2 \n         1\n         3\n",
    )?;
    image(
        rt,
        b"slot 4294967296",
        b"    3    2\n    0    0\n    1    1\n         2\n4294967296\n         3\n",
    )?;
    image(
        rt,
        b"last slot malformed",
        b"    3    2\n    0    0\n    1    1\n         2\n         1\n        03\n",
    )?;
    image(
        rt,
        b"two lines malformed",
        b"    3    2\n    0    0\n    1    1\n         2\n        x1\n         3\r",
    )
}

// 13: the first group, a start that falls, a group too large, an end past N; 14: another group, neither place; 15.
fn groups_and_slots(rt: &impl Print) -> io::Result<()> {
    image(
        rt,
        b"first start 1",
        b"    3    2\n    1    0\n    1    1\n         2\n         1\n         3\n",
    )?;
    image(
        rt,
        b"start past N",
        b"    3    2\n    0    0\n    4    1\n         2\n         1\n         3\n",
    )?;
    image(
        rt,
        b"start 99999",
        b"    3    2\n    0    0\n99999    1\n         2\n         1\n         3\n",
    )?;
    image(
        rt,
        b"group of 33",
        b"   33    1
    0    0
         1
         2
         3
         4
         5
         6
         7
         8
         9
        10
        11
        12
        13
        14
        15
        16
        17
        18
        19
        20
        21
        22
        23
        24
        25
        26
        27
        28
        29
        30
        31
        32
        33
",
    )?;
    image(
        rt,
        b"starts moved",
        b"    3    2\n    0    0\n    2    1\n         2\n         1\n         3\n",
    )?;
    image(
        rt,
        b"tag of another group",
        b"    3    2\n    0    0\n    1    1\n         3\n         1\n         3\n",
    )?;
    image(
        rt,
        b"tag at neither place",
        b"    3    2\n    0    0\n    1    1\n         2\n         3\n         1\n",
    )?;
    image(
        rt,
        b"tag twice",
        b"    3    2\n    0    0\n    1    1\n         2\n         3\n         3\n",
    )?;
    image(
        rt,
        b"tag twice, first at its second place",
        b"    2    1\n    0    0\n         6\n         6\n",
    )
}

// 17 at the lowest slot that holds tag 0, in its place or not; behind 12, before 13, 14 and 15. The lookups of 0 in all images above
// answer unknown wherever 11, 12 and 11 have passed, whatever the lines of its group say.
fn unwired(rt: &impl Print) -> io::Result<()> {
    image(
        rt,
        b"tag 0 in slot 0",
        b"    3    2\n    0    0\n    1    1\n         0\n         1\n         3\n",
    )?;
    image(
        rt,
        b"tag 0 in slot 2",
        b"    3    2\n    0    0\n    1    1\n         2\n         1\n         0\n",
    )?;
    image(
        rt,
        b"tag 0 in slots 1 and 2",
        b"    3    2\n    0    0\n    1    1\n         2\n         0\n         0\n",
    )?;
    image(
        rt,
        b"tag 0 at its place, beside one tag",
        b"    2    1\n    0    0\n         0\n2147483648\n",
    )?;
    image(
        rt,
        b"tag 0, last slot malformed",
        b"    3    2\n    0    0\n    1    1\n         2\n         0\n        03\n",
    )?;
    image(
        rt,
        b"tag 0, own line malformed",
        b"    3    2\n    0   00\n    1    1\n         2\n         1\n         0\n",
    )?;
    image(
        rt,
        b"tag 0, first start 1",
        b"    3    2\n    1    0\n    1    1\n         2\n         0\n         3\n",
    )?;
    image(
        rt,
        b"tag 0, start past N",
        b"    3    2\n    0    0\n    4    1\n         2\n         1\n         0\n",
    )?;
    image(
        rt,
        b"tag 0 behind a tag of another group",
        b"    3    2\n    0    0\n    1    1\n         3\n         1\n         0\n",
    )?;
    image(
        rt,
        b"tag 0 before a tag twice",
        b"    3    2\n    0    0\n    1    1\n         0\n         3\n         3\n",
    )
}

fn main(rt: HostRuntime) -> io::Result<()> {
    accepted(&rt)?;
    large_groups(&rt)?;
    lines(&rt)?;
    groups_and_slots(&rt)?;
    unwired(&rt)
}
