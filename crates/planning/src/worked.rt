// What the promise of `plan_list` suffices for, from the promise alone.
ghost use Rattle.std.specs.Prelude.{◌≡◌};
ghost use Rattle.refusal.specs.Outcome.{refused};
ghost use Rattle.numbering.specs.Plan.{no_plan};
ghost use Rattle.refusal.specs.Answer.{outcome};

use crate::plan_list;
use refusal::Refusal;

// With B = 0 every list is refused with 8 at place 0, and the plan is 513 zeros whatever it was.
pub fn plan_without_groups(
    tags: &[u32],
    plan: &mut [u32; refusal::PLAN_CELLS],
) -> Result<u32, Refusal>
    ensures answer { outcome result ≡ refused 8 0 }
    ensures cleared { plan.new ≡ no_plan }
{
    plan_list(tags, 0, 1, plan)
}
