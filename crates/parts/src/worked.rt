// What the promises of `count_parts` suffice for, from the promises alone.
ghost use Rattle.std.specs.Prelude.{◌≡◌, ◌↔◌, Bool, true, List};
ghost use Rattle.filling.specs.Filling.{Fills};
ghost use Rattle.group.specs.Group.{group_under};
ghost use Rattle.parts_condition.specs.Condition.{PartsChecks};

use crate::count_parts;

// {1, 3} under seed 0, of whose places 0 and 1 no tag has place 0: two parts, and the seed does not serve.
pub fn parts_of_one_and_three() -> u32
    ensures answer { result ≡ 2 }
{
    let tags = [1u32, 3];
    match count_parts(&tags, 0) {
        Ok(parts) if parts.serves => 0,
        Ok(parts) => parts.number,
        Err(_) => 0,
    }
}

// Does some choice sequence fill the group under this seed? The answer is for groups that are refused by nothing.
pub fn serves(tags: &[u32], seed: u32) -> bool
    ensures answer { PartsChecks tags.now seed
        → (result ≡ true) ↔ ((choices : List Bool) × Fills (group_under tags.now seed) choices) }
{
    match count_parts(tags, seed) {
        Ok(parts) => parts.serves,
        Err(_) => false,
    }
}
