// Building an index without tags from a list text: the text's list is read, and handed on.
#![tactic(auto)]

mod worked;

ghost use Rattle.std.specs.Prelude.{◌≡◌, length};
ghost use Rattle.refusal.specs.Answer.{outcome};
ghost use Rattle.tagless.specs.FromText.{tagless_from_text, tagless_buffer_from_text};
ghost use Rattle.tagless_from_text.specs.Condition.{TextTaglessCondition};

use list::ListHead;
use refusal::Refusal;

// Building an index without tags from a list text, for any text and any buffer.
pub fn build_from_text(text: &[u8], buffer: &mut [u8]) -> Result<usize, Refusal>
    ensures answer { outcome result ≡ tagless_from_text text.now (length buffer.old) }
    ensures bytes { buffer.new ≡ tagless_buffer_from_text text.now buffer.old }
    ensures condition { TextTaglessCondition text.now (length buffer.old) (outcome result)
        buffer.new }
{
    let mut cells = [0u32; refusal::TAG_CELLS];
    match from_text::read_text(text, &mut cells) {
        Ok(
            ListHead {
                groups,
                limit,
                count,
            },
        ) => { tagless_building::tagless_build(&cells[..count], groups, limit, buffer) }
        Err(refusal) => Err(refusal),
    }
}
