// The operation "placing a group": the least seed that some choice sequence fills, and the sequence taken under it.
#![tactic(auto)]

mod worked;

ghost use Rattle.std.specs.Prelude.{◌≡◌};
ghost use Rattle.refusal.specs.Outcome.{refused, answered_by};
ghost use Rattle.refusal.specs.Reason.{reason_number};
ghost use Rattle.group.specs.Placing.{Placement, placing_of};
ghost use Rattle.refusal.specs.Answer.{outcome};
ghost use Rattle.placing.specs.Answer.{placing_outcome};

use refusal::{Reason, Refusal};

// What placing answers: the seed and the choice word.
#[derive(Clone, Copy, Debug, PartialEq, Eq)]
pub struct Placed {
    pub seed: u32,
    pub word: u32,
}

// The seed that placing a group answers, without the word under it; for any list and any limit.
pub fn group_seed(tags: &[u32], limit: u32) -> Result<u32, Refusal>
    ensures answer { outcome result ≡ answered_by (λ (placed : Placement). placed.seed) (placing_of tags.now limit) }
{
    if refusal::outside(1, refusal::LIMIT_MAX, limit) {
        return Err(Reason::LimitOutOfRange.into());
    }
    if (refusal::GROUP_MAX as usize) < tags.len() {
        return Err(Reason::TooManyTags.into());
    }
    if let Some(i) = group::first_not_above(tags) {
        return Err(Reason::NotAscending.at(i));
    }
    if group::starts_unwired(tags) {
        return Err(Reason::UnwiredTag.into());
    }
    let mut places = [0u32; places::PLACE_CELLS];
    Ok(seeds::least_seed(tags, limit, &mut places).ok_or(Reason::NoSeed)?)
}

// The operation "placing a group", for any list and any limit.
pub fn place_group(tags: &[u32], limit: u32) -> Result<Placed, Refusal>
    ensures answer { placing_outcome result ≡ placing_of tags.now limit }
{
    let seed = group_seed(tags, limit)?;
    // Under the seed found some sequence fills, so there is a word.
    let word = word::word_under(tags, seed).ok_or(Reason::NoSeed)?;
    Ok(Placed { seed, word })
}
