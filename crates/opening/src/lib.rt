// How checking and lookup begin: the image's length and line 0; and when a group is faulty.
#![tactic(auto)]

ghost use Rattle.std.specs.Prelude.{◌≡◌};
ghost use Rattle.image.specs.View.{faulty};
ghost use Rattle.opening.specs.Opening.{opening_of};
ghost use Rattle.refusal.specs.Answer.{outcome};

use refusal::{Reason, Refusal};
use text::LINE_LENGTH;

// "11, 12 and 11": the checks that come first in checking and in lookup.
pub fn open(image: &[u8]) -> Result<(u32, u32), Refusal>
    ensures answer { outcome result ≡ opening_of image.now }
{
    if LINE_LENGTH <= image.len() {
        let Some((count, groups)) = lines::read_image_header(image, 0) else {
            return Err(Reason::MalformedLine.into());
        };
        if image.len() == LINE_LENGTH * (1 + groups + count) as usize {
            return Ok((count, groups));
        }
    }
    Err(Reason::WrongLength.into())
}

// Is group g faulty, which starts at `start` and after which `next` comes?
pub fn faulty(g: u32, start: u32, next: u32) -> bool
    ensures answer { result ≡ faulty g start next }
{
    if next < start {
        return true;
    }
    if refusal::GROUP_MAX < next - start {
        return true;
    }
    if g != 0 {
        return false;
    }
    start != 0
}
