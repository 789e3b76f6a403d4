// What the promises of the three calls suffice for, from the promises alone.
ghost use Rattle.std.specs.Prelude.{◌≡◌, length};
ghost use Rattle.refusal.specs.Outcome.{answered};
ghost use Rattle.image.specs.View.{count_in};
ghost use Rattle.tagless_image.specs.View.{tagless_view};
ghost use Rattle.tagless_image.specs.Checking.{tagless_checking_of};
ghost use Rattle.tagless_lookup.specs.Checked.{Numberless};

use crate::{build, check, lookup};

// A text of no bytes is refused with 16 at place 0, and the buffer stays as it is.
pub fn build_from_nothing(image: &mut [u8]) -> u64
    ensures answer { result ≡ 68719476736 }
    ensures kept { image.new ≡ image.old }
{
    build(b"", image)
}

// No bytes are refused with 11 at place 0,
pub fn check_nothing() -> u64
    ensures answer { result ≡ 47244640256 }
{
    check(b"")
}

// also in lookup.
pub fn look_up_in_nothing(tag: u32) -> u64
    ensures answer { result ≡ 47244640256 }
{
    lookup(b"", tag)
}

// The figure of a tag that is not 0 and whose group has tags. The index is checked and there are N figures, so no answer lies past them.
pub fn figure_of(image: &[u8], tag: u32, figures: &[u32]) -> u32
    requires image_value { tagless_checking_of image.now ≡ answered 0 }
    requires figures_len { length figures.now ≡ count_in (tagless_view image.now) }
    requires fact { Numberless image.now tag → ⊥ }
{
    figures[lookup(image, tag) as usize]
}
