// Runs reading on the longest list and on one tag more: 4,096 tags are read, 4,097 are refused with 5.
#![tactic(auto)]

use std::io;

fn read(rt: &impl Print, text: &[u8], cells: &mut [u32]) -> io::Result<()> {
    match list::read_list(text, cells) {
        Ok(listed) => {
            report::words(rt, b"count ")?;
            report::number(rt, listed.count as u64)?;
            if 4095 < cells.len() {
                report::words(rt, b", last tag ")?;
                report::number(rt, cells[4095] as u64)?;
            }
        }
        Err(refusal) => report::refusal(rt, refusal)?,
    }
    report::words(rt, b"\n")
}

fn main(rt: HostRuntime) -> io::Result<()> {
    let mut cells: [u32; 4097] = [7; 4097];
    let mut longest = [b' '; 45067];
    report::number_lines(&mut longest);
    read(&rt, &longest, &mut cells)?;
    let mut longer = [b' '; 45078];
    report::number_lines(&mut longer);
    read(&rt, &longer, &mut cells)
}
