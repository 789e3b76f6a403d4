// What the promise of `write_lines` suffices for, from the promise alone.
ghost use Rattle.std.specs.Prelude.{◌≡◌, ◌++◌, ◌≤◌, length, drop};
ghost use Rattle.text.specs.Line.{pair_line};

use crate::write_lines;

// With no groups line 0 is all that is written, and the bytes behind it stay.
pub fn write_line_0(buffer: &mut [u8])
    requires { 11 ≤ length buffer.old }
    ensures bytes { buffer.new ≡ pair_line 0 0 ++ drop 11 buffer.old }
{
    let ends = [0usize];
    let cells = [0u32];
    write_lines(&ends, &cells, &cells, 0, 0, buffer);
}
