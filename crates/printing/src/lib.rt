// The index printer: the image of a list text, or one line with the refusal.
#![tactic(auto)]

ghost use Rattle.std.specs.Prelude.{◌≡◌, length};
ghost use Rattle.printing.specs.Printing.{printed_count, printed_into};

// The most bytes that an image has.
pub const LONGEST_IMAGE: usize = text::LINE_LENGTH
    * (1 + refusal::GROUP_CELLS + refusal::TAG_CELLS);

// Writes what the index printer writes for a text at the beginning of `out`, and answers how many bytes. An `out` that is shorter than
// the longest image is left as it is, and the answer is 0.
pub fn print_index(text: &[u8], out: &mut [u8]) -> usize
    ensures answer { result ≡ printed_count text.now (length out.old) }
    ensures bytes { out.new ≡ printed_into text.now out.old }
{
    if out.len() < LONGEST_IMAGE {
        return 0;
    }
    match from_text::build_from_text(text, out) {
        Ok(size) => size,
        Err(refusal) => {
            let number = u32::from(refusal.reason);
            let place = refusal.place as u32;
            lines::write_pair_line(out, 0, number, place);
            text::LINE_LENGTH
        }
    }
}
