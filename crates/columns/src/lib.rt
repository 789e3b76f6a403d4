// Eight columns of a text read in one word: the first column in its lowest byte.
#![tactic(auto)]

ghost use Rattle.std.specs.Prelude.{◌≡◌, ◌+◌, ◌*◌, ◌≤◌, ◌<◌, length, take, drop};
ghost use Rattle.digits.specs.Digits.{packed};
ghost use Rattle.columns.specs.Columns.{leading_from, fours_in};
ghost use Rattle.columns.specs.Word.{columns_read};

// Reads the leading columns of a line's two fields: its first four columns, and four from the sixth on.
pub fn two_fours(line: &[u8]) -> Option<(u16, u16)>
    requires { 9 ≤ length line.now }
    ensures answer { result ≡ fours_in line.now }
{
    read_columns(line, 5, 0x7fffffff7fffffff)
}

// Reads the first eight columns of a line's one field.
pub fn eight_columns(line: &[u8]) -> Option<u32>
    requires { 8 ≤ length line.now }
    ensures answer { result ≡ leading_from 0 (take 8 line.now) }
{
    let (first, last) = read_columns(line, 4, 0x7fffffffffffffff)?;
    Some(first as u32 * 10000 + last as u32)
}

// Reads the first four columns and four from `second` on, of digits and spaces. A space counts as the digit 0, and stands where
// adding `carry` to the digits sets bit 16 of its byte: with 255 for each column and 127 for the last, that is in every column
// before the first other digit.
fn read_columns(line: &[u8], second: usize, carry: u64) -> Option<(u16, u16)>
    requires le_second { (4 ≤ second) × (second + 4 ≤ length line.now) }
    requires carry_bound { carry < 9223372036854775808 }
    ensures answer { result ≡ columns_read carry (take 4 line.now) (take 4 (drop second line.now)) }
{
    let word = four_bytes(line, 0) + four_bytes(line, second) * 4294967296;
    let digits = word & 0x0f0f0f0f0f0f0f0f;
    // Half a byte above 9 comes to 16 or more.
    if (digits + 0x0606060606060606) & 0x1010101010101010 != 0 {
        return None;
    }
    // A space is 16 below '0'.
    let spaces = (digits + carry) & 0x1010101010101010;
    if word != digits + 0x3030303030303030 - spaces {
        return None;
    }
    // Two columns at once, and then two of these: each number is made where its first digit stands.
    let pairs = (digits * 10 + digits / 256) & 0x00ff00ff00ff00ff;
    let fours = (pairs * 100 + pairs / 65536) & 0x0000ffff0000ffff;
    Some(((fours % 65536) as u16, (fours / 4294967296) as u16))
}

// Four bytes of a text in a word. The compiler makes one load of them.
fn four_bytes(s: &[u8], at: usize) -> u64
    requires { at + 4 ≤ length s.now }
    ensures answer { result ≡ packed (take 4 (drop at s.now)) }
    ensures below { result < 4294967296 }
{
    four(s[at], s[at + 1], s[at + 2], s[at + 3])
}

// Each byte counts 256 times the one before it.
fn four(a: u8, b: u8, c: u8, d: u8) -> u64
    ensures answer { result ≡ a + 256 * (b + 256 * (c + 256 * (d + 256 * 0))) }
    ensures below { result < 4294967296 }
{
    a as u64 + b as u64 * 256 + c as u64 * 65536 + d as u64 * 16777216
}
