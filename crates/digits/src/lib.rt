// Numbers in columns: how many one takes, its digits from a column on, and eight at once, a tag's last eight.
#![tactic(auto)]

mod worked;

ghost use Rattle.std.specs.Prelude.{◌≡◌, ◌+◌, ◌-◌, ◌≤◌, ◌<◌, length};
ghost use Rattle.lists.specs.Written.{written_at};
ghost use Rattle.digits.specs.Digits.{digits, digits_from, packed};
ghost use Rattle.digits.specs.Width.{width_of};

// How many columns n takes: a range for each, in the order of the layout.
pub fn width_of(n: u32) -> usize
    ensures answer { result ≡ width_of n }
{
    match n {
        0..=9 => 1,
        10..=99 => 2,
        100..=999 => 3,
        1000..=9999 => 4,
        10000..=99999 => 5,
        100000..=999999 => 6,
        1000000..=9999999 => 7,
        10000000..=99999999 => 8,
        100000000..=999999999 => 9,
        1000000000..=4294967295 => 10,
    }
}

// The column of a field that n's first digit goes to, counted from 0: behind as many spaces as n leaves columns.
pub fn first_column(n: u32, columns: usize) -> usize
    ensures answer { result ≡ columns - width_of n }
{
    let width = width_of(n);
    if width < columns { columns - width } else { 0 }
}

// Writes the last digits of n over the whole slice, from the right; a 0 before column `first` is a space.
pub fn write_digits_from(s: &mut [u8], first: usize, n: u32)
    ensures bytes { s.new ≡ digits_from first (length s.old) n }
{
    let mut rest = n;
    for i in (0..s.len()).rev() {
        let zero = if first <= i { b'0' } else { b' ' };
        s[i] = zero + (rest % 10) as u8;
        rest /= 10;
    }
}

// The eight digits of n as characters, packed into one word: the first in the lowest byte.
fn eight_digits(n: u32) -> u64
    requires { n < 100000000 }
    ensures answer { result ≡ packed (digits 8 n) }
{
    // Four pairs of digits, 16 bits each, the first pair lowest.
    let pairs = (n / 1000000) as u64
        + (n / 10000 % 100) as u64 * 65536
        + (n / 100 % 100) as u64 * 4294967296
        + (n % 100) as u64 * 281474976710656;
    // The tens of each pair: p * 103 / 1024 is p / 10 for p below 100. The mask clears what came down from the pair above.
    let tens = (pairs * 103 / 1024) & 0x000f000f000f000f;
    // The tens, the ones a byte higher, and '0' added to each: tens + (pairs - 10 * tens) * 256, written so that the compiler
    // makes one store of the eight.
    pairs * 256 + 0x3030303030303030 - tens * 2559
}

// Writes the eight digits of n, with zeros in front; the bytes before and after them stay.
pub fn write_eight_digits(buffer: &mut [u8], at: usize, n: u32)
    requires { (at + 8 ≤ length buffer.old) × (n < 100000000) }
    ensures bytes { buffer.new ≡ written_at at (digits 8 n) buffer.old }
{
    let word = eight_digits(n);
    buffer[at] = (word % 256) as u8;
    buffer[at + 1] = (word / 256 % 256) as u8;
    buffer[at + 2] = (word / 65536 % 256) as u8;
    buffer[at + 3] = (word / 16777216 % 256) as u8;
    buffer[at + 4] = (word / 4294967296 % 256) as u8;
    buffer[at + 5] = (word / 1099511627776 % 256) as u8;
    buffer[at + 6] = (word / 281474976710656 % 256) as u8;
    buffer[at + 7] = (word / 72057594037927936 % 256) as u8;
}
