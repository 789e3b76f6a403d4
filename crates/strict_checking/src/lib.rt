// The operation "strict check": whether an image is one that building writes for some list, for any bytes.
#![tactic(auto)]

mod worked;

ghost use Rattle.std.specs.Prelude.{◌≡◌};
ghost use Rattle.refusal.specs.Outcome.{answered};
ghost use Rattle.lists.specs.First.{first};
ghost use Rattle.opening.specs.Opening.{opening_of};
ghost use Rattle.checking.specs.Answer.{check_outcome};
ghost use Rattle.strict.specs.StrictCheck.{strict_check_of};
ghost use Rattle.strict_condition.specs.Condition.{StrictCondition};
ghost use Rattle.strict_checking.specs.Groups.{differs_at, AllServable};

use refusal::{GROUP_CELLS, Reason, Refusal, TAG_CELLS};
use slots::START_CELLS;

// The operation "strict check". It answers as checking does.
pub fn strict_check(image: &[u8]) -> Result<(), Refusal>
    ensures answer { check_outcome result ≡ strict_check_of image.now }
    ensures condition { StrictCondition image.now (check_outcome result) }
{
    let (count, groups) = opening::open(image)?;
    strict_opened(image, count, groups)
}

// The strict check of an image that opens: checking reads its numbers into cells, and the groups are compared there.
fn strict_opened(opened: &[u8], count: u32, groups: u32) -> Result<(), Refusal>
    requires { opening_of opened.now ≡ answered (count, groups) }
    ensures answer { check_outcome result ≡ strict_check_of opened.now }
{
    let mut starts = [0u32; START_CELLS];
    let mut seeds = [0u32; GROUP_CELLS];
    let mut tags = [0u32; TAG_CELLS];
    checking::check_opened(opened, count, groups, &mut starts, &mut seeds, &mut tags)?;
    match first_not_as_built(&starts, &seeds, &tags, groups) {
        Some(g) => Err(Reason::NotAsBuilt.at(g)),
        None => Ok(()),
    }
}

// The lowest group whose seed or slots differ from what building gives its tags.
fn first_not_as_built(
    starts: &[u32; START_CELLS],
    seeds: &[u32; GROUP_CELLS],
    tags: &[u32],
    groups: u32,
) -> Option<usize>
    requires { AllServable starts.now seeds.now tags.now groups }
    ensures answer { result
        ≡ first (differs_at starts.now seeds.now tags.now) groups }
{
    for g in 0..groups as usize {
        let start = starts[g] as usize;
        let end = starts[g + 1] as usize;
        if strict_group::differs(&tags[start..end], seeds[g]) {
            return Some(g);
        }
    }
    None
}
