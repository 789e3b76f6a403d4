// Runs the index printer: the whole case of document 01, a text for each refusal, the longest text that is examined and one byte more,
// and an output that is too short.
#![tactic(auto)]

use std::io;

// Prints the case's name, how many bytes the printer wrote, and the first 77 bytes of its output, which were dots.
fn show(rt: &impl Print, name: &[u8], count: usize, out: &[u8]) -> io::Result<()> {
    report::words(rt, name)?;
    report::words(rt, b": ")?;
    report::number(rt, count as u64)?;
    report::words(rt, b"\n")?;
    if 77 <= out.len() {
        report::words(rt, &out[..77])?;
    }
    report::words(rt, b"\n")
}

fn print(rt: &impl Print, name: &[u8], text: &[u8]) -> io::Result<()> {
    let mut out = [b'.'; printing::LONGEST_IMAGE];
    let count = printing::print_index(text, &mut out);
    show(rt, name, count, &out)
}

// The whole case, in an output that is one byte shorter than the longest image.
fn print_short(rt: &impl Print) -> io::Result<()> {
    let mut out = [b'.'; printing::LONGEST_IMAGE - 1];
    let count = printing::print_index(
        b"    2    9\n         1\n         2\n         3\n",
        &mut out,
    );
    show(rt, b"output of 50698 bytes", count, &out)
}

fn main(rt: HostRuntime) -> io::Result<()> {
    print(
        &rt,
        b"whole case",
        b"    2    9\n         1\n         2\n         3\n",
    )?;
    print(&rt, b"empty list", b"    1    1\n")?;
    print(&rt, b"no bytes", b"")?;
    print(
        &rt,
        b"line 2 malformed",
        b"    2    9\n         1\n        02\n         3\n",
    )?;
    print(&rt, b"B = 513", b"  513    9\n         1\n")?;
    print(&rt, b"L = 0", b"    2    0\n         1\n")?;
    print(&rt, b"L = 65537", b"    265537\n         1\n")?;
    print(
        &rt,
        b"tag 2 after tag 3",
        b"    2    9\n         1\n         3\n         2\n",
    )?;
    print(
        &rt,
        b"a list with tag 0",
        b"    2    9\n         0\n         1\n         2\n",
    )?;
    print(&rt, b"tag 0 twice", b"    2    9\n         0\n         0\n")?;
    print(
        &rt,
        b"a seed above 0 with L = 1",
        b"    2    1\n         1\n         2\n         3\n",
    )?;
    print(
        &rt,
        b"32 tags in one group",
        b"    1    1
         1
         2
         3
         4
         5
         6
         7
         8
         9
        10
        11
        12
        13
        14
        15
        16
        17
        18
        19
        20
        21
        22
        23
        24
        25
        26
        28
        29
        32
        34
        43
        47
",
    )?;
    print(
        &rt,
        b"33 tags in one group",
        b"    1    9
         1
         2
         3
         4
         5
         6
         7
         8
         9
        10
        11
        12
        13
        14
        15
        16
        17
        18
        19
        20
        21
        22
        23
        24
        25
        26
        27
        28
        29
        30
        31
        32
        33
",
    )?;
    let longest = [b' '; 65527];
    print(&rt, b"65527 bytes", &longest)?;
    let longer = [b' '; 65528];
    print(&rt, b"65528 bytes", &longer)?;
    print_short(&rt)
}
