// What the promise of `build_then_look_up` suffices for: worked value 1, from the promise alone.
ghost use Rattle.std.specs.Prelude.{◌≡◌};

use crate::build_then_look_up;
use lookup::LookupAnswer;

// "One group {1, 2}, L = 1: … tag 1 has number 1".
pub fn number_of_one() -> u32
    ensures answer { result ≡ 1 }
{
    let tags = [1u32, 2];
    let mut plan = [0u32; refusal::PLAN_CELLS];
    let mut buffer = [0u8; 44];
    match build_then_look_up(&tags, 1, 1, &mut plan, &mut buffer, 1) {
        LookupAnswer::Number(j) => j,
        LookupAnswer::Unknown => 2,
        LookupAnswer::Refused(_) => 3,
    }
}
