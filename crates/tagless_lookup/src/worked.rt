// What the promise of `tagless_lookup` suffices for, from the promise alone.
ghost use Rattle.std.specs.Prelude.{◌≡◌, length};
ghost use Rattle.refusal.specs.Outcome.{answered};
ghost use Rattle.image.specs.View.{count_in};
ghost use Rattle.tagless_image.specs.View.{tagless_view};
ghost use Rattle.tagless_image.specs.Checking.{tagless_checking_of};

use crate::tagless_lookup;
use lookup::LookupAnswer;

// The figure of a tag, 0 where it has none. The index is checked and there are N figures, so no number lies past them.
pub fn figure_of(image: &[u8], tag: u32, figures: &[u32]) -> u32
    requires image_value { tagless_checking_of image.now ≡ answered 0 }
    requires figures_len { length figures.now ≡ count_in (tagless_view image.now) }
{
    match tagless_lookup(image, tag) {
        LookupAnswer::Number(j) => figures[j as usize],
        LookupAnswer::Unknown => 0,
        LookupAnswer::Refused(_) => 0,
    }
}
