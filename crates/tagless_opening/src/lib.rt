// How checking and lookup of an index without tags begin: its length and line 0; and the line of a group.
#![tactic(auto)]

ghost use Rattle.std.specs.Prelude.{◌≡◌, suc, ◌≤◌, ◌<◌};
ghost use Rattle.refusal.specs.Limits.{groups_max};
ghost use Rattle.refusal.specs.Answer.{outcome};
ghost use Rattle.tagless_image.specs.View.{stated_at, tagless_view};
ghost use Rattle.tagless_opening.specs.Opening.{tagless_opening_of};

use refusal::{Reason, Refusal};
use text::LINE_LENGTH;
use word_line::WORD_LINE_LENGTH;

// "11, 12 and 11": the checks that come first in checking and in lookup. N and B, or why the image does not open.
pub fn open(image: &[u8]) -> Result<(u32, u32), Refusal>
    ensures answer { outcome result ≡ tagless_opening_of image.now }
{
    if LINE_LENGTH <= image.len() {
        let Some((count, groups)) = lines::read_image_header(image, 0) else {
            return Err(Reason::MalformedLine.into());
        };
        if image.len() == (11 + 21 * groups) as usize {
            return Ok((count, groups));
        }
    }
    Err(Reason::WrongLength.into())
}

// What the line of group g states.
pub fn read_group(image: &[u8], groups: u32, g: u32) -> Option<(u32, u32, u32)>
    requires { (g < groups) × (groups ≤ groups_max) }
    ensures answer { result ≡ stated_at image.now (suc g) }
{
    word_line::read_word_line(image, LINE_LENGTH + WORD_LINE_LENGTH * g as usize)
}

// The same but for its word: malformed if that is.
pub fn read_start_and_seed(image: &[u8], groups: u32, g: u32) -> Option<(u32, u32)>
    requires { (g < groups) × (groups ≤ groups_max) }
    ensures answer { result ≡ (tagless_view image.now).group_at (suc g) }
{
    word_line::read_start_and_seed(image, LINE_LENGTH + WORD_LINE_LENGTH * g as usize)
}
