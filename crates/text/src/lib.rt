// Columns, fields and the content of one line: what they read as. `lines` reads and writes the lines of a text.
#![tactic(auto)]

ghost use Rattle.std.specs.Prelude.{◌≡◌, ◌+◌, ◌*◌, ◌%◌, ◌<◌, ◌≤◌, [], ◌∷◌, length, take, drop, nat_lt, option_copied};
ghost use Rattle.refusal.specs.Limits.{tag_end};
ghost use Rattle.columns.specs.Columns.{column_of, leading_from};
ghost use Rattle.text.specs.Field.{field};
ghost use Rattle.text.specs.Part.{part};
ghost use Rattle.text.specs.Line.{line_length, both_fields, pair_of, tag_of, within};

// Every line is ten columns and a line feed.
pub const LINE_LENGTH: usize = 11;

// So many bytes from `at` on, where the text has them all.
pub fn part(bytes: &[u8], at: usize, width: usize) -> Option<&[u8]>
    ensures answer { option_copied result ≡ part at width bytes.now }
{
    bytes.get(at..)?.get(..width)
}

// The byte of a leading column with this digit, where the number up to it is n: a space as long as that is 0.
fn column_byte(n: u64, digit: u8) -> u8
    requires { digit < 10 }
    ensures answer { result ≡ column_of n digit }
{
    if n == 0 { b' ' } else { b'0' + digit }
}

// One leading column more behind those of v. Its digit is the lower half of its byte.
fn leading_column(v: u64, byte: u8) -> Option<u64>
    requires { v < 1000000000000000000 }
    ensures answer { result ≡ leading_from v (byte ∷ []) }
{
    let low = byte % 16;
    if 10 <= low {
        return None;
    }
    let n = v * 10 + low as u64;
    if byte != column_byte(n, low) {
        return None;
    }
    Some(n)
}

// How far a line's last column and its line feed, as one number, are above '0' and a line feed: at most 9 where they are a digit
// and a line feed. What is below wraps far above 9.
fn end_digit(byte: u8, feed: u8) -> u16
    ensures answer { (result + 2608) % 65536 ≡ byte + 256 * feed }
{
    std::num::wrapping_sub_u16(byte as u16 | feed as u16 * 256, 0x0a30)
}

// The number in a field of so many columns that starts at a byte of the text. A field that the text cuts off is malformed.
pub fn read_field(bytes: &[u8], at: usize, width: usize) -> Option<u64>
    requires { width ≤ 19 }
    ensures answer { result ≡ field width (take width (drop at bytes.now)) }
{
    let (last, leading) = part(bytes, at, width)?.split_last()?;
    let mut v = 0;
    for &byte in leading {
        v = leading_column(v, byte)?;
    }
    let digit = std::num::wrapping_sub_u8(*last, b'0');
    if 10 <= digit {
        return None;
    }
    Some(v * 10 + digit as u64)
}

// The two fields of five columns of a whole line, in any range.
pub fn pair_in(line: &[u8]) -> Option<(u32, u32)>
    requires { length line.now ≡ line_length }
    ensures answer { result ≡ pair_of line.now }
{
    let (m, n) = columns::two_fours(line)?;
    let first = std::num::wrapping_sub_u8(line[4], b'0');
    if 10 <= first {
        return None;
    }
    let second = end_digit(line[9], line[10]);
    if 10 <= second {
        return None;
    }
    Some((m as u32 * 10 + first as u32, n as u32 * 10 + second as u32))
}

// Two fields of five columns, with nothing asked of what stands behind them.
pub fn fields_in(line: &[u8]) -> Option<(u32, u32)>
    requires { length line.now ≡ 10 }
    ensures answer { result
        ≡ both_fields (field 5 (take 5 line.now)) (field 5 (take 5 (drop 5 line.now))) }
{
    let (m, n) = columns::two_fours(line)?;
    let first = std::num::wrapping_sub_u8(line[4], b'0');
    if 10 <= first {
        return None;
    }
    let second = std::num::wrapping_sub_u8(line[9], b'0');
    if 10 <= second {
        return None;
    }
    Some((m as u32 * 10 + first as u32, n as u32 * 10 + second as u32))
}

// The one tag of a whole line: the number in its ten columns, if it fits 32 bits.
pub fn tag_in(line: &[u8]) -> Option<u32>
    requires { length line.now ≡ line_length }
    ensures answer { result ≡ within (λ t. nat_lt t tag_end) (tag_of line.now) }
{
    let eight = columns::eight_columns(line)?;
    let nine = leading_column(eight as u64, line[8])?;
    let last = end_digit(line[9], line[10]);
    if 10 <= last {
        return None;
    }
    let t = nine * 10 + last as u64;
    if refusal::TAG_MAX < t {
        return None;
    }
    Some(t as u32)
}
