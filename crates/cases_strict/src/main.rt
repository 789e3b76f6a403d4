// Runs checking and the strict check on small images: as building writes them, with another seed or another sequence that checking
// accepts as well, and with a refusal of checking and 19 due at once.
#![tactic(auto)]

use refusal::Refusal;
use std::io;

fn said(rt: &impl Print, answer: Result<(), Refusal>) -> io::Result<()> {
    match answer {
        Ok(()) => report::words(rt, b"accepted"),
        Err(refusal) => report::refusal(rt, refusal),
    }
}

// Prints the case's name, and what checking and the strict check say of the image.
fn image(rt: &impl Print, name: &[u8], image: &[u8]) -> io::Result<()> {
    report::words(rt, name)?;
    report::words(rt, b": ")?;
    said(rt, checking::check_image(image))?;
    report::words(rt, b", strictly ")?;
    said(rt, strict_checking::strict_check(image))?;
    report::words(rt, b"\n")
}

// Puts a text over the beginning of the bytes, if it fits.
fn put_first(bytes: &mut [u8], text: &[u8]) {
    if bytes.len() < text.len() {
        return;
    }
    bytes[..text.len()].copy_from_slice(text);
}

// Puts a text over the bytes of an image of at most 34 lines from a line on.
fn put(image: &mut [u8], line: usize, text: &[u8]) {
    if 33 < line {
        return;
    }
    let at = line * 11;
    if image.len() < at {
        return;
    }
    put_first(&mut image[at..], text);
}

// The image of eight tags in six groups, built with L = 7. Two tags of group 0 and two of group 2 have the same two places, so that
// the lowest tag decides; in group 2 it stands behind the other. Groups 1 and 5 are empty, group 3 has one tag, and six seeds do not
// serve group 4.
fn six_groups(image: &mut [u8]) {
    put(
        image,
        0,
        b"    8    6
    0    0
    2    0
    2    0
    5    0
    6    6
    8    0
         2
        23
        39
        37
        16
         7
        51
        55
",
    );
}

// The image of six groups with lines replaced: from one line on, and from another.
fn edited(
    rt: &impl Print,
    name: &[u8],
    line: usize,
    text: &[u8],
    other_line: usize,
    other: &[u8],
) -> io::Result<()> {
    let mut bytes = [b' '; 165];
    six_groups(&mut bytes);
    put(&mut bytes, line, text);
    put(&mut bytes, other_line, other);
    image(rt, name, &bytes)
}

// What building writes: the whole case, empty lists, small limits.
fn built(rt: &impl Print) -> io::Result<()> {
    image(
        rt,
        b"whole case",
        b"    3    2\n    0    0\n    1    1\n         2\n         1\n         3\n",
    )?;
    image(rt, b"empty list", b"    0    1\n    0    0\n")?;
    image(
        rt,
        b"empty list in three groups",
        b"    0    3\n    0    0\n    0    0\n    0    0\n",
    )?;
    image(
        rt,
        b"built with L = 1",
        b"    1    1\n    0    0\n        13\n",
    )?;
    image(
        rt,
        b"built with L = 2",
        b"    2    1\n    0    1\n         1\n         3\n",
    )
}

// The image of six groups, and two edited ones that are other lists'.
fn built_in_six_groups(rt: &impl Print) -> io::Result<()> {
    edited(rt, b"six groups, built with L = 7", 0, b"", 0, b"")?;
    edited(
        rt,
        b"tag 7 of group 3 is 28: another list",
        12,
        b"        28\n",
        0,
        b"",
    )?;
    edited(
        rt,
        b"tag 37 of group 2 is 58: another list",
        10,
        b"        58\n",
        0,
        b"",
    )?;
    image(
        rt,
        b"tags that have one place each",
        b"    2    1\n    0    0\n        13\n2147483648\n",
    )
}

// Another seed that serves too.
fn seeds(rt: &impl Print) -> io::Result<()> {
    image(
        rt,
        b"whole case, seed 7 in group 0",
        b"    3    2\n    0    7\n    1    1\n         2\n         1\n         3\n",
    )?;
    image(
        rt,
        b"whole case, group 1 under seed 2",
        b"    3    2\n    0    0\n    1    2\n         2\n         3\n         1\n",
    )?;
    image(
        rt,
        b"seed 2 where seed 1 serves",
        b"    2    1\n    0    2\n         3\n         1\n",
    )
}

// And in the image of six groups.
fn seeds_in_six_groups(rt: &impl Print) -> io::Result<()> {
    edited(
        rt,
        b"group 0 under seed 2",
        1,
        b"    0    2\n",
        7,
        b"        23\n         2\n",
    )?;
    edited(rt, b"group 3 with seed 1", 4, b"    5    1\n", 0, b"")?;
    edited(rt, b"group 4 under seed 7", 5, b"    6    7\n", 0, b"")?;
    edited(rt, b"group 4 under seed 65535", 5, b"    665535\n", 0, b"")
}

// And of empty groups.
fn seeds_of_empty_groups(rt: &impl Print) -> io::Result<()> {
    image(rt, b"empty list with seed 1", b"    0    1\n    0    1\n")?;
    image(
        rt,
        b"empty list with seed 65535 in the last group",
        b"    0    3\n    0    0\n    0    0\n    065535\n",
    )?;
    edited(rt, b"empty group 1 with seed 1", 2, b"    2    1\n", 0, b"")?;
    edited(rt, b"empty group 5 with seed 1", 6, b"    8    1\n", 0, b"")
}

// Another sequence under the same seed, in all slots of a group and in the last two; the order before, by the lowest tag alone; tags
// replaced by others that may stand there, for which a lower seed or another sequence is building's.
fn sequences(rt: &impl Print) -> io::Result<()> {
    edited(
        rt,
        b"group 0 turned round",
        7,
        b"        23\n         2\n",
        0,
        b"",
    )?;
    edited(
        rt,
        b"group 2 turned round",
        10,
        b"        16\n        37\n",
        0,
        b"",
    )?;
    image(
        rt,
        b"fewest second places",
        b"    3    1\n    0    0\n         2\n        12\n         1\n",
    )?;
    image(
        rt,
        b"the lowest tag alone",
        b"    3    1\n    0    0\n        12\n         1\n         2\n",
    )?;
    edited(rt, b"tag 51 of group 4 is 53", 13, b"        53\n", 0, b"")?;
    edited(rt, b"tag 16 of group 2 is 58", 11, b"        58\n", 0, b"")
}

// Of several groups the lowest is named.
fn several(rt: &impl Print) -> io::Result<()> {
    edited(
        rt,
        b"groups 2 and 4",
        5,
        b"    6    7\n",
        10,
        b"        16\n        37\n",
    )?;
    edited(
        rt,
        b"groups 1 and 5",
        2,
        b"    2    9\n",
        6,
        b"    8    9\n",
    )?;
    edited(
        rt,
        b"groups 3 and 4",
        4,
        b"    5    1\n    6    7\n",
        0,
        b"",
    )?;
    edited(
        rt,
        b"groups 4 and 5",
        5,
        b"    6    7\n    8    1\n",
        0,
        b"",
    )?;
    edited(
        rt,
        b"all groups",
        1,
        b"    0    2\n    2    1\n    2    0\n    5    3\n    6    7\n    8    4\n",
        7,
        b"        23\n         2\n        39\n        16\n        37\n",
    )
}

// Slots exchanged between groups and in one: a tag of another group, or one that may not stand there, is checking's to refuse.
fn exchanged(rt: &impl Print) -> io::Result<()> {
    edited(
        rt,
        b"slots of groups 0 and 4 exchanged",
        7,
        b"        51\n        55\n",
        13,
        b"         2\n        23\n",
    )?;
    edited(
        rt,
        b"one slot of groups 2 and 3 exchanged",
        11,
        b"         7\n        16\n",
        0,
        b"",
    )?;
    edited(
        rt,
        b"group 4 turned round",
        13,
        b"        55\n        51\n",
        0,
        b"",
    )
}

// Each refusal of checking with 19 due too, at a group before the fault or behind it.
fn due_at_once(rt: &impl Print) -> io::Result<()> {
    image(rt, b"ten bytes", b"    3    2")?;
    image(
        rt,
        b"one byte short, seed 7 in group 0",
        b"    3    2\n    0    7\n    1    1\n         2\n         1\n         3",
    )?;
    image(
        rt,
        b"one line short, seed 7 in group 0",
        b"    3    2\n    0    7\n    1    1\n         2\n         1\n",
    )?;
    image(
        rt,
        b"one line more, seed 7 in group 0",
        b"    3    2\n    0    7\n    1    1\n         2\n         1\n         3\n         4\n",
    )
}

// In the image of six groups: malformed lines, tag 0, faulty groups.
fn lines_at_fault(rt: &impl Print) -> io::Result<()> {
    edited(rt, b"B = 0", 0, b"    8    0\n    0    9\n", 0, b"")?;
    edited(
        rt,
        b"a group line malformed",
        4,
        b"    5   00\n",
        6,
        b"    8    1\n",
    )?;
    edited(
        rt,
        b"a slot line malformed",
        12,
        b"        07\n",
        2,
        b"    2    1\n",
    )?;
    edited(
        rt,
        b"tag 0 in a slot",
        12,
        b"         0\n",
        2,
        b"    2    1\n",
    )?;
    edited(
        rt,
        b"a start past N",
        4,
        b"    9    0\n",
        6,
        b"    8    1\n",
    )?;
    edited(
        rt,
        b"group 0 starts at 1",
        1,
        b"    1    0\n",
        6,
        b"    8    1\n",
    )
}

// And tags at fault.
fn tags_at_fault(rt: &impl Print) -> io::Result<()> {
    edited(
        rt,
        b"a tag of another group",
        12,
        b"         2\n",
        2,
        b"    2    1\n",
    )?;
    edited(
        rt,
        b"a tag at neither place",
        9,
        b"        37\n        39\n",
        6,
        b"    8    1\n",
    )?;
    edited(
        rt,
        b"a tag twice",
        10,
        b"        37\n        37\n",
        2,
        b"    2    1\n",
    )?;
    edited(
        rt,
        b"a tag twice, and 19 behind it",
        7,
        b"         2\n         2\n",
        6,
        b"    8    1\n",
    )
}

// A group of 32 tags, as many as a group may hold; and with the tags 7, 21, 29 and 32 at their second places, each in the place of the
// next.
fn group_of_32(rt: &impl Print) -> io::Result<()> {
    let mut bytes = [b' '; 374];
    put(
        &mut bytes,
        0,
        b"   32    1
    0    0
        34
        13
        26
        18
        47
        10
        23
         2
         5
        28
         7
        20
        11
        12
        25
         4
        17
         3
        43
        22
        14
         9
         6
        19
        32
        15
        24
         1
        16
        29
         8
        21
",
    );
    image(rt, b"group of 32", &bytes)?;
    put(&mut bytes, 12, b"        32\n");
    put(&mut bytes, 26, b"        29\n");
    put(&mut bytes, 31, b"        21\n");
    put(&mut bytes, 33, b"         7\n");
    image(rt, b"group of 32, four tags moved on", &bytes)
}

fn main(rt: HostRuntime) -> io::Result<()> {
    built(&rt)?;
    built_in_six_groups(&rt)?;
    seeds(&rt)?;
    seeds_in_six_groups(&rt)?;
    seeds_of_empty_groups(&rt)?;
    sequences(&rt)?;
    several(&rt)?;
    exchanged(&rt)?;
    due_at_once(&rt)?;
    lines_at_fault(&rt)?;
    tags_at_fault(&rt)?;
    group_of_32(&rt)
}
