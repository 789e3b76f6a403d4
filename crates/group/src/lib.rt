// Checks 6 and 17 of placing and building: is the list strictly ascending, and is its first tag that of a tank?
#![tactic(auto)]

mod worked;

ghost use Rattle.std.specs.Prelude.{◌≡◌};
ghost use Rattle.group.specs.Ascending.{ascending_check};
ghost use Rattle.group.specs.Unwired.{starts_unwired};

// The first index whose tag is not above the one before.
pub fn first_not_above(tags: &[u32]) -> Option<usize>
    ensures answer { result ≡ (ascending_check tags.now).1 }
{
    for i in 1..tags.len() {
        if tags[i] <= tags[i - 1] {
            return Some(i);
        }
    }
    None
}

// Is the first tag 0, which is reserved for an unwired point? An empty list has no first tag.
pub fn starts_unwired(tags: &[u32]) -> bool
    ensures answer { result ≡ starts_unwired tags.now }
{
    if tags.len() == 0 {
        return false;
    }
    tags[0] == refusal::UNWIRED
}
