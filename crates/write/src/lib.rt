// The image that arrays state: line 0, the group lines, the slot lines.
#![tactic(auto)]

ghost use Rattle.std.specs.Prelude.{◌≡◌, ◌++◌, ◌+◌, ◌*◌, ◌≤◌, ◌<◌, length, drop};
ghost use Rattle.text.specs.Line.{line_length};
ghost use Rattle.image.specs.Sheet.{bytes_of, image_length};
ghost use Rattle.numbering.specs.Parts.{part_start};
ghost use Rattle.write.specs.Stated.{stated_sheet, stated_line, EndsSmall, Writable};
ghost use Rattle.lists.specs.Written.{written_at};

// Writes the image that the arrays state, line after line; the bytes after it stay.
pub fn write_lines(
    ends: &[usize],
    seeds: &[u32],
    slots: &[u32],
    groups: usize,
    count: usize,
    buffer: &mut [u8],
)
    requires { Writable ends.now seeds.now slots.now groups count (length buffer.old) }
    ensures bytes { buffer.new
        ≡ bytes_of (stated_sheet ends.now seeds.now slots.now groups count)
        ++ drop (image_length groups count) buffer.old }
{
    let lines = 1 + groups + count;
    for k in 0..lines {
        write_line(ends, seeds, slots, groups, count, k, buffer);
    }
}

// Writes line k of the image that the arrays state: line 0, a group's line or a slot's. The other bytes stay.
fn write_line(
    ends: &[usize],
    seeds: &[u32],
    slots: &[u32],
    groups: usize,
    count: usize,
    k: usize,
    buffer: &mut [u8],
)
    requires { Writable ends.now seeds.now slots.now groups count (length buffer.old) × (k < 1 + groups + count) }
    ensures bytes { buffer.new ≡ written_at (line_length * k)
        (stated_line ends.now seeds.now slots.now groups count k) buffer.old }
{
    let at = text::LINE_LENGTH * k;
    if k == 0 {
        lines::write_pair_line(buffer, at, count as u32, groups as u32);
        return;
    }
    let g = k - 1;
    if g < groups {
        lines::write_pair_line(buffer, at, start_of(ends, g), seeds[g]);
        return;
    }
    lines::write_tag_line(buffer, at, slots[g - groups]);
}

// Where group g begins: where the group before it ends.
pub fn start_of(ends: &[usize], g: usize) -> u32
    requires { (g ≤ length ends.now) × EndsSmall ends.now g }
    ensures answer { result ≡ part_start ends.now g }
{
    if g == 0 {
        return 0;
    }
    ends[g - 1] as u32
}
