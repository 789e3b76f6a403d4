// The seeds of all groups, found before anything is written, and the plan that states them.
#![tactic(auto)]

mod worked;

ghost use Rattle.std.specs.Prelude.{◌≡◌, ◌∷◌, ◌≤◌, suc, length, unwrap_or};
ghost use Rattle.refusal.specs.Limits.{groups_max};
ghost use Rattle.lists.specs.First.{first};
ghost use Rattle.plan.specs.Seeds.{unseeded, seeds_found, Plannable};

// Fills the seeds group by group, each from its own part of the ordered tags, and stops at the lowest group that has no seed.
pub fn plan_groups(
    ordered: &[u32],
    ends: &[usize],
    groups: usize,
    limit: u32,
    seeds: &mut [u32; refusal::GROUP_CELLS],
) -> Option<usize>
    requires { Plannable groups ordered.now ends.now limit × (groups ≤ groups_max) × (length seeds.old ≡ groups_max) }
    ensures answer { result ≡ first (unseeded ordered.now ends.now limit) groups }
    ensures seeds { seeds.new ≡ seeds_found ordered.now ends.now limit
        (unwrap_or result groups) seeds.old }
{
    let mut start = 0;
    for g in 0..groups {
        let end = ends[g];
        let Ok(seed) = placing::group_seed(&ordered[start..end], limit) else {
            return Some(g);
        };
        seeds[g] = seed;
        start = end;
    }
    None
}

// States a plan: B, and then the seeds.
pub fn state_plan(groups: u32, seeds: &[u32], plan: &mut [u32; refusal::PLAN_CELLS])
    requires { (length seeds.now ≡ groups_max) × (length plan.old ≡ suc groups_max) }
    ensures cells { plan.new ≡ groups ∷ seeds.now }
{
    plan[0] = groups;
    plan[1..].copy_from_slice(seeds);
}
