// Checking of an index without tags: whether it is one that lookup may trust, for any bytes.
#![tactic(auto)]

ghost use Rattle.std.specs.Prelude.{◌≡◌, ◌+◌, length};
ghost use Rattle.refusal.specs.Limits.{groups_max};
ghost use Rattle.lists.specs.First.{first};
ghost use Rattle.refusal.specs.Outcome.{answered};
ghost use Rattle.image.specs.Checking.{malformed_in};
ghost use Rattle.checking.specs.Answer.{check_outcome};
ghost use Rattle.checking.specs.Steps.{lines_before};
ghost use Rattle.tagless_image.specs.View.{tagless_view};
ghost use Rattle.tagless_image.specs.Checking.{tagless_checking_of};
ghost use Rattle.tagless_opening.specs.Opening.{tagless_opening_of, TaglessOpens};
ghost use Rattle.tagless_checking.specs.Steps.{StartsStored};

use refusal::{Reason, Refusal};
use slots::START_CELLS;

// The operation "checking" for an index without tags.
pub fn tagless_check(image: &[u8]) -> Result<(), Refusal>
    ensures answer { check_outcome result ≡ tagless_checking_of image.now }
{
    let (count, groups) = tagless_opening::open(image)?;
    check_opened(image, count, groups)
}

// Checking of an image that opens: every line is read, and then the starts decide.
fn check_opened(image: &[u8], count: u32, groups: u32) -> Result<(), Refusal>
    requires { tagless_opening_of image.now ≡ answered (count, groups) }
    ensures answer { check_outcome result ≡ tagless_checking_of image.now }
{
    let mut starts = [0u32; START_CELLS];
    if let Some(k) = read_lines(image, count, groups, &mut starts) {
        return Err(Reason::MalformedLine.at(k));
    }
    if let Some(g) = checking::faulty_group(&starts, groups) {
        return Err(Reason::FaultyGroup.at(g));
    }
    Ok(())
}

// The first malformed line. The starts of the groups before it are stored, and N behind the starts.
fn read_lines(
    image: &[u8],
    count: u32,
    groups: u32,
    starts: &mut [u32; START_CELLS],
) -> Option<usize>
    requires tagless_opens { TaglessOpens image.now count groups }
    requires starts_len { length starts.old ≡ groups_max + 1 }
    ensures answer { result ≡ first (malformed_in (tagless_view image.now)) (1 + groups) }
    ensures cells { StartsStored (tagless_view image.now) count groups (lines_before result (1 + groups))
        starts.new }
{
    starts[groups as usize] = count;
    for g in 0..groups {
        let Some((start, _)) = tagless_opening::read_start_and_seed(image, groups, g) else {
            return Some(1 + g as usize);
        };
        starts[g as usize] = start;
    }
    None
}
