// What the promise of `plan_groups` suffices for: worked value 3 as the only group of a plan, from the promise alone.
ghost use Rattle.std.specs.Prelude.{◌≡◌};

use crate::plan_groups;

// "{1, 3}, L = 2: seed 1".
pub fn seed_of_one_and_three() -> u32
    ensures answer { result ≡ 1 }
{
    let ordered = [1u32, 3];
    let ends = [2usize];
    let mut seeds = [0u32; refusal::GROUP_CELLS];
    plan_groups(&ordered, &ends, 1, 2, &mut seeds);
    seeds[0]
}
