// Runs whole searches: groups that no seed serves are refused only after all 65,536 seeds, and a group that the last seed serves gets
// it. Multipliers are odd, so a multiple of 2^29 stays one, and an odd multiple stays odd; those of 2^27 alike.
#![tactic(auto)]

use std::io;

fn place(rt: &impl Print, tags: &[u32], limit: u32) -> io::Result<()> {
    match placing::place_group(tags, limit) {
        Ok(placed) => {
            report::words(rt, b"seed ")?;
            report::number(rt, placed.seed as u64)?;
            report::words(rt, b", word ")?;
            report::number(rt, placed.word as u64)?;
        }
        Err(refusal) => report::refusal(rt, refusal)?,
    }
    report::words(rt, b"\n")
}

// 2^29 times 1, 2, 3, 5 and 7: place 2 is never reached, and every seed is dropped early.
fn dropped(rt: &impl Print) -> io::Result<()> {
    place(
        rt,
        &[536870912, 1073741824, 1610612736, 2684354560, 3758096384],
        65536,
    )
}

// The same and 4 times 2^29: every place is touched, but all of them other than 2 times 2^29 have only the places 0, 2, 3 and 5, four
// places for five tags. Every seed needs the full test.
fn tested(rt: &impl Print) -> io::Result<()> {
    place(
        rt,
        &[
            536870912, 1073741824, 1610612736, 2147483648, 2684354560, 3758096384,
        ],
        65536,
    )
}

// The 31 multiples of 2^27, which have the places 1 to 31 of 32, one each, and 2391486289, which has the place 16 under every seed:
// place 0 is never reached. A multiplier takes 2391486289 to 2^31 and at most 2^18 more.
fn dropped_32(rt: &impl Print) -> io::Result<()> {
    place(
        rt,
        &[
            134217728, 268435456, 402653184, 536870912, 671088640, 805306368, 939524096,
            1073741824, 1207959552, 1342177280, 1476395008, 1610612736, 1744830464, 1879048192,
            2013265920, 2147483648, 2281701376, 2391486289, 2415919104, 2550136832, 2684354560,
            2818572288, 2952790016, 3087007744, 3221225472, 3355443200, 3489660928, 3623878656,
            3758096384, 3892314112, 4026531840, 4160749568,
        ],
        65536,
    )
}

// The multiples of 2^27 but the first, which still touch the places 1 to 31, and two tags with place 0 alone under every seed: a
// multiplier takes 244002641 to a number below 2^18, and twice that to one below 2^19.
fn tested_32(rt: &impl Print) -> io::Result<()> {
    place(
        rt,
        &[
            244002641, 268435456, 402653184, 488005282, 536870912, 671088640, 805306368, 939524096,
            1073741824, 1207959552, 1342177280, 1476395008, 1610612736, 1744830464, 1879048192,
            2013265920, 2147483648, 2281701376, 2415919104, 2550136832, 2684354560, 2818572288,
            2952790016, 3087007744, 3221225472, 3355443200, 3489660928, 3623878656, 3758096384,
            3892314112, 4026531840, 4160749568,
        ],
        65536,
    )
}

// Seed 65,535 serves these 32 tags and no other does: with L = 65,535 it is not tried.
fn last_seed(rt: &impl Print) -> io::Result<()> {
    let tags = [
        31u32, 41, 521, 587, 1926, 2118, 2431, 2632, 2778, 3039, 3273, 3443, 3871, 4127, 4436,
        4452, 4662, 5245, 5281, 5333, 5421, 6130, 6933, 7620, 7632, 7697, 8132, 8484, 9305, 9764,
        9771, 9791,
    ];
    place(rt, &tags, 65536)?;
    place(rt, &tags, 65535)
}

fn main(rt: HostRuntime) -> io::Result<()> {
    dropped(&rt)?;
    tested(&rt)?;
    dropped_32(&rt)?;
    tested_32(&rt)?;
    last_seed(&rt)
}
