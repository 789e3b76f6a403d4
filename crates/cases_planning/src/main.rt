// Runs cases of planning and of writing: plans as planning yields them, of other lists, and changed; each refusal of the two, and which
// of two comes first. Every lent cell and every byte of the buffer is printed, after a refusal too.
#![tactic(auto)]

use std::io;

// Plans into cells that hold anything, and prints the answer and all cells.
fn plan_into(
    rt: &impl Print,
    name: &[u8],
    tags: &[u32],
    groups: u32,
    limit: u32,
    cells: &mut [u32; refusal::PLAN_CELLS],
) -> io::Result<()> {
    report::words(rt, name)?;
    report::words(rt, b": ")?;
    match planning::plan_list(tags, groups, limit, cells) {
        Ok(b) => report::number(rt, b as u64)?,
        Err(refusal) => report::refusal(rt, refusal)?,
    }
    report::words(rt, b"\n ")?;
    report::numbers(rt, cells)?;
    report::words(rt, b"\n")
}

// Plans into cells that all hold 9.
fn plan(rt: &impl Print, name: &[u8], tags: &[u32], groups: u32, limit: u32) -> io::Result<()> {
    let mut cells = [9u32; refusal::PLAN_CELLS];
    plan_into(rt, name, tags, groups, limit, &mut cells)
}

// Writes with a plan, and prints the answer and the whole buffer.
fn write_into(
    rt: &impl Print,
    name: &[u8],
    tags: &[u32],
    cells: &[u32; refusal::PLAN_CELLS],
    buffer: &mut [u8],
) -> io::Result<()> {
    report::words(rt, name)?;
    report::words(rt, b": ")?;
    match writing::write_list(tags, cells, buffer) {
        Ok(size) => report::number(rt, size as u64)?,
        Err(refusal) => report::refusal(rt, refusal)?,
    }
    report::words(rt, b"\n")?;
    report::words(rt, buffer)?;
    report::words(rt, b"\n")
}

// Writes with a plan of these seeds, behind which all cells hold 4,294,967,295, into a buffer of 77 bytes.
fn write(
    rt: &impl Print,
    name: &[u8],
    tags: &[u32],
    groups: u32,
    first: u32,
    second: u32,
    third: u32,
) -> io::Result<()> {
    let mut cells = [4294967295u32; refusal::PLAN_CELLS];
    cells[0] = groups;
    cells[1] = first;
    cells[2] = second;
    cells[3] = third;
    let mut buffer = [b'#'; 77];
    write_into(rt, name, tags, &cells, &mut buffer)
}

// The same with one seed or two, into a buffer that holds 35 tags in two groups.
fn write_large(
    rt: &impl Print,
    name: &[u8],
    tags: &[u32],
    groups: u32,
    first: u32,
    second: u32,
) -> io::Result<()> {
    let mut cells = [4294967295u32; refusal::PLAN_CELLS];
    cells[0] = groups;
    cells[1] = first;
    cells[2] = second;
    let mut buffer = [b'#'; 418];
    write_into(rt, name, tags, &cells, &mut buffer)
}

// Plans, and writes with the plan as it was yielded: a buffer that is too short by one byte, exact, and longer; and another list.
fn in_turn(rt: &impl Print) -> io::Result<()> {
    let mut cells = [7u32; refusal::PLAN_CELLS];
    plan_into(rt, b"whole case", &[1, 2, 3], 2, 9, &mut cells)?;
    let mut short = [b'#'; 65];
    write_into(rt, b"room 65", &[1, 2, 3], &cells, &mut short)?;
    let mut exact = [b'#'; 66];
    write_into(rt, b"room 66", &[1, 2, 3], &cells, &mut exact)?;
    let mut longer = [b'#'; 70];
    write_into(rt, b"room 70", &[1, 2, 3], &cells, &mut longer)?;
    write_into(
        rt,
        b"the plan serves 2, 4, 5 and 7",
        &[2, 4, 5, 7],
        &cells,
        &mut [b'#'; 77],
    )?;
    write_into(
        rt,
        b"and not 2, 4, 9 and 11",
        &[2, 4, 9, 11],
        &cells,
        &mut [b'#'; 77],
    )?;
    plan_into(
        rt,
        b"refused over the plan of another list",
        &[1, 3, 4, 9, 12],
        2,
        2,
        &mut cells,
    )?;
    write_into(
        rt,
        b"under the refused plan",
        &[1, 2, 3],
        &cells,
        &mut [b'#'; 77],
    )
}

// Plans: seeds above 0 in both groups, empty groups, the greatest B.
fn plans(rt: &impl Print) -> io::Result<()> {
    plan(rt, b"seeds 1 and 2", &[1, 3, 4, 9, 12], 2, 3)?;
    plan(rt, b"no tags", &[], 3, 1)?;
    plan(rt, b"B = 512", &[1, 908, 4294967295], 512, 1)
}

// Each refusal of planning but 10, and which of two comes first: 8, 4, 5, 6, 17, 7. Before the last one group 0 has its seed, which is 1.
fn refused_plans(rt: &impl Print, many: &[u32]) -> io::Result<()> {
    plan(rt, b"B = 0", &[1, 2, 3], 0, 9)?;
    plan(rt, b"B = 513, L = 0", &[1, 2, 3], 513, 0)?;
    plan(rt, b"L = 0, 4097 tags", many, 2, 0)?;
    plan(rt, b"L = 65537", &[1, 2, 3], 2, 65537)?;
    plan(rt, b"4097 equal tags", many, 2, 9)?;
    plan(rt, b"tag 5 twice, behind tag 0", &[0, 5, 5], 2, 9)?;
    plan(rt, b"tag 0", &[0, 1, 3], 2, 1)?;
    plan(rt, b"group 1 without a seed", &[1, 3, 4, 9, 12], 2, 2)
}

// Seeds other than those that planning finds; groups that a seed does not serve, though another does; empty groups.
fn seeds(rt: &impl Print) -> io::Result<()> {
    write(rt, b"seeds 0 and 1", &[1, 2, 3], 2, 0, 1, 4294967295)?;
    write(rt, b"seeds 65535 and 16", &[1, 2, 3], 2, 65535, 16, 65536)?;
    write(rt, b"seeds 65535 and 17", &[1, 2, 3], 2, 65535, 17, 0)?;
    write(rt, b"seeds exchanged", &[1, 2, 3], 2, 1, 0, 0)?;
    write(rt, b"both groups served", &[1, 3, 4, 12], 2, 1, 1, 0)?;
    write(rt, b"group 0 not served", &[1, 3, 4, 12], 2, 0, 1, 0)?;
    write(rt, b"group 1 not served", &[1, 3, 4, 12], 2, 1, 0, 0)?;
    write(rt, b"neither served", &[1, 3, 4, 12], 2, 0, 0, 0)?;
    write(
        rt,
        b"tags with the same two places",
        &[599, 1193],
        1,
        0,
        0,
        0,
    )?;
    write(
        rt,
        b"fewest second places under a later seed",
        &[1, 2, 12],
        1,
        11,
        0,
        0,
    )?;
    write(rt, b"no tags", &[], 3, 7, 65535, 0)?;
    write(rt, b"one tag, and two empty groups", &[2], 3, 9, 8, 7)?;
    write(rt, b"two empty groups and one tag", &[13], 3, 1, 2, 3)
}

// Each refusal of writing but 10, and which of two comes first: 8, 2, 5, 6, 17, 9, 18.
fn refused(rt: &impl Print, many: &[u32]) -> io::Result<()> {
    write(rt, b"B = 0, seed 65536", &[1, 2, 3], 0, 65536, 1, 0)?;
    write(rt, b"B = 513, seed 65536", &[1, 2, 3], 513, 65536, 1, 0)?;
    write(rt, b"B = 4294967295", &[1, 2, 3], 4294967295, 0, 1, 0)?;
    write(
        rt,
        b"B = 512, seed 4294967295 in group 3",
        &[1, 2, 3],
        512,
        0,
        1,
        0,
    )?;
    write(rt, b"seed 65536 in group 0", &[1, 2, 3], 2, 65536, 1, 0)?;
    write(rt, b"seed 65536 in group 1", &[1, 2, 3], 2, 0, 65536, 0)?;
    write(
        rt,
        b"seed 4294967295 in both",
        &[1, 2, 3],
        2,
        4294967295,
        4294967295,
        0,
    )?;
    write(rt, b"seed 65536 in an empty group", &[2], 3, 0, 0, 65536)?;
    write(rt, b"seed 65536, 4097 tags", many, 2, 0, 65536, 0)?;
    write(rt, b"4097 equal tags", many, 2, 0, 0, 0)?;
    write(rt, b"seed 65536, tag 5 twice", &[5, 5], 2, 0, 65536, 0)?;
    write(rt, b"tag 5 twice", &[5, 5], 2, 0, 0, 0)?;
    write(rt, b"tag 5 twice, behind tag 0", &[0, 5, 5], 2, 0, 0, 0)?;
    write(rt, b"tag 0, room for 4 tags", &[0, 1, 2, 3, 4], 2, 0, 1, 0)?;
    write(rt, b"tag 0", &[0, 1, 2], 2, 0, 0, 0)?;
    write(
        rt,
        b"5 tags, room for 4, group 1 not served",
        &[1, 2, 3, 4, 9],
        2,
        0,
        0,
        0,
    )
}

// 33 tags in group 1, and a group 0 that seed 0 does not serve: 17 comes before 10, 10 before 7, 9 and 2 before 10, and 10 before 18.
// With one tag less, 7 at group 0, and 18 at each group.
fn sizes(rt: &impl Print) -> io::Result<()> {
    let tags = [
        0u32, 1, 3, 4, 5, 7, 9, 11, 12, 13, 15, 17, 19, 21, 22, 24, 26, 28, 30, 32, 34, 36, 38, 40,
        42, 45, 47, 49, 51, 53, 55, 57, 59, 61, 63, 66,
    ];
    plan(rt, b"tag 0, and 33 tags in group 1", &tags, 2, 1)?;
    plan(
        rt,
        b"33 tags in group 1, group 0 without a seed",
        &tags[1..],
        2,
        1,
    )?;
    plan(rt, b"group 0 without a seed", &tags[1..35], 2, 1)?;
    write(
        rt,
        b"33 tags in group 1, room for 4",
        &tags[1..],
        2,
        0,
        0,
        0,
    )?;
    write_large(
        rt,
        b"seed 65536, 33 tags in group 1",
        &tags[1..],
        2,
        0,
        65536,
    )?;
    write_large(rt, b"33 tags in group 1", &tags[1..], 2, 0, 0)?;
    write_large(rt, b"neither served", &tags[1..35], 2, 0, 0)?;
    write_large(rt, b"group 1 not served", &tags[1..35], 2, 1, 0)
}

// 32 tags that the last seed serves, and no other.
fn last_seed(rt: &impl Print) -> io::Result<()> {
    let tags = [
        31u32, 41, 521, 587, 1926, 2118, 2431, 2632, 2778, 3039, 3273, 3443, 3871, 4127, 4436,
        4452, 4662, 5245, 5281, 5333, 5421, 6130, 6933, 7620, 7632, 7697, 8132, 8484, 9305, 9764,
        9771, 9791,
    ];
    write_large(rt, b"32 tags, seed 65535", &tags, 1, 65535, 0)?;
    write_large(rt, b"32 tags, seed 65534", &tags, 1, 65534, 0)
}

fn main(rt: HostRuntime) -> io::Result<()> {
    let many = [5u32; 4097];
    in_turn(&rt)?;
    plans(&rt)?;
    refused_plans(&rt, &many)?;
    seeds(&rt)?;
    refused(&rt, &many)?;
    sizes(&rt)?;
    last_seed(&rt)
}
