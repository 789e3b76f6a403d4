// The index printer: reads one list text from standard input, and writes its image to standard output, or one line with the refusal.
#![tactic(auto)]

ghost use Rattle.std.specs.Prelude.{IfOk, length, take, ◌≤◌, ◌<◌};
ghost use Rattle.std.specs.Io.KnownBytes.{Consumes, IsAtEnd};

use std::io;
use std::io::Read;

// Reads until the buffer is full or the input ends, and returns how many bytes it put at the buffer's start.
fn read_full<R: Read>(input: &mut R, buffer: &mut [u8]) -> io::Result<usize>
    ensures within { IfOk result (λ count. count ≤ length buffer.new) }
    ensures read { IfOk result (λ count. Consumes (R.remaining input.old) (R.remaining input.new) (take count buffer.new)) }
    ensures whole { IfOk result (λ count. count < length buffer.new → IsAtEnd (R.remaining input.new)) }
{
    let mut done = 0;
    while done < buffer.len() {
        let count = input.read(&mut buffer[done..])?;
        if count == 0 {
            break;
        }
        done += count;
    }
    Ok(done)
}

fn write_first(rt: &impl Print, out: &[u8], count: usize) -> io::Result<()> {
    if out.len() < count {
        return Ok(());
    }
    rt.write_all(&out[..count])
}

fn main(rt: HostRuntime) -> io::Result<()> {
    // One byte more than a list text may have: enough to know that an input is longer.
    let mut text = [0u8; refusal::TEXT_MAX + 1];
    let mut out = [0u8; printing::LONGEST_IMAGE];
    let length = read_full(&mut rt.reader(), &mut text)?;
    let count = printing::print_index(&text[..length], &mut out);
    write_first(&rt, &out, count)
}
