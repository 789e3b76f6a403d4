// What the promises of `count_parts` suffice for, from the promises alone.
ghost use Rattle.std.specs.Prelude.{◌≡◌, ◌↔◌, Bool, true, List};
ghost use Rattle.filling.specs.Filling.{Fills};
ghost use Rattle.group.specs.Group.{group_under};
ghost use Rattle.parts_condition.specs.Condition.{PartsChecks};

use crate::count_parts;

// {1, 3} under seed 0: two parts, and the seed does not serve.
pub fn parts_of_one_and_three() -> u64
    ensures answer { result ≡ 4 }
{
    let tags = [1u32, 3];
    count_parts(&tags, 0)
}

// A seed serves a group that nothing refuses exactly if the answer is odd.
pub fn serves(tags: &[u32], seed: u32) -> bool
    ensures answer { PartsChecks tags.now seed
        → (result ≡ true) ↔ ((choices : List Bool) × Fills (group_under tags.now seed) choices) }
{
    count_parts(tags, seed) % 2 == 1
}
