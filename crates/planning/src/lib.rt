// The operation "planning": the seeds of all groups, before an image is written.
#![tactic(auto)]

mod worked;

ghost use Rattle.std.specs.Prelude.{◌≡◌};
ghost use Rattle.refusal.specs.Outcome.{refused};
ghost use Rattle.refusal.specs.Reason.{reason_number};
ghost use Rattle.numbering.specs.Plan.{no_plan};
ghost use Rattle.numbering.specs.Planning.{planning_of, plan_after};
ghost use Rattle.condition3.specs.Condition3.{PlanningCondition3};
ghost use Rattle.refusal.specs.Answer.{outcome};
ghost use Rattle.planning.specs.Arrays.{Admitted, Orderly};

use refusal::{Reason, Refusal};

// The operation "planning", for any list, any B and L. A plan is B and then 512 seeds; a refused planning leaves zeros.
pub fn plan_list(
    tags: &[u32],
    groups: u32,
    limit: u32,
    plan: &mut [u32; refusal::PLAN_CELLS],
) -> Result<u32, Refusal>
    ensures answer { outcome result ≡ planning_of tags.now groups limit }
    ensures plan { plan.new ≡ plan_after tags.now groups limit } // all cells, for any list
    ensures condition3 { PlanningCondition3 tags.now groups limit (outcome result) plan.new }
{
    *plan = [0; refusal::PLAN_CELLS];
    if refusal::outside(1, refusal::GROUPS_MAX, groups) {
        return Err(Reason::GroupCountOutOfRange.into());
    }
    if refusal::outside(1, refusal::LIMIT_MAX, limit) {
        return Err(Reason::LimitOutOfRange.into());
    }
    if refusal::TAGS_MAX < tags.len() {
        return Err(Reason::TooManyTags.into());
    }
    if let Some(i) = group::first_not_above(tags) {
        return Err(Reason::NotAscending.at(i));
    }
    if group::starts_unwired(tags) {
        return Err(Reason::UnwiredTag.into());
    }
    plan_admitted(tags, groups, limit, plan)
}

// Planning where the checks 8, 4, 5, 6 and 17 pass, and the cells are zeros: the tags are ordered by group.
fn plan_admitted(
    tags: &[u32],
    groups: u32,
    limit: u32,
    plan: &mut [u32; refusal::PLAN_CELLS],
) -> Result<u32, Refusal>
    requires { Admitted tags.now groups limit × (plan.old ≡ no_plan) }
    ensures answer { outcome result ≡ planning_of tags.now groups limit }
    ensures plan { plan.new ≡ plan_after tags.now groups limit }
{
    let mut ends = [0usize; refusal::GROUP_CELLS];
    let mut ordered = [0u32; refusal::TAG_CELLS];
    if let Some(g) = order::order_by_group(tags, groups, &mut ends, &mut ordered) {
        return Err(Reason::GroupTooLarge.at(g));
    }
    plan_ordered(tags, groups, limit, &ordered, &ends, plan)
}

// Planning from the tags ordered by group, no group of which is too large. The plan is stated when every group has its seed.
fn plan_ordered(
    tags: &[u32],
    groups: u32,
    limit: u32,
    ordered: &[u32],
    ends: &[usize],
    plan: &mut [u32; refusal::PLAN_CELLS],
) -> Result<u32, Refusal>
    requires { Orderly tags.now groups limit ordered.now ends.now × (plan.old ≡ no_plan) }
    ensures answer { outcome result ≡ planning_of tags.now groups limit }
    ensures plan { plan.new ≡ plan_after tags.now groups limit }
{
    let mut seeds = [0; 512];
    if let Some(g) = plan::plan_groups(ordered, ends, groups as usize, limit, &mut seeds) {
        return Err(Reason::NoSeed.at(g));
    }
    plan::state_plan(groups, &seeds, plan);
    Ok(groups)
}
