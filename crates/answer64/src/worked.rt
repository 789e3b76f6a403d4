// What the promise of `refusal_answer` suffices for, from the promise alone.
ghost use Rattle.std.specs.Prelude.{◌≡◌};

use crate::refusal_answer;
use refusal::{Reason, Refusal};

// A malformed line 3, a refusal with 12 at place 3, is answered as 12 × 2^32 + 3.
pub fn malformed_line_3() -> u64
    ensures answer { result ≡ 51539607555 }
{
    refusal_answer(Refusal {
        reason: Reason::MalformedLine,
        place: 3,
    })
}
