// The 64-bit answer of a refusal, as C and Rust get it.
#![tactic(auto)]

mod worked;

ghost use Rattle.std.specs.Prelude.{◌≡◌, ◌<◌};
ghost use Rattle.refusal.specs.Limits.{tag_end};
ghost use Rattle.refusal.specs.Reason.{refusal_of};
ghost use Rattle.answer64.specs.Answer64.{answer64};

use refusal::Refusal;

// A refusal's answer: its number × 2^32 plus its place.
pub fn refusal_answer(refusal: Refusal) -> u64
    requires { refusal.place < tag_end }
    ensures answer { result ≡ answer64 (refusal_of refusal) }
{
    u32::from(refusal.reason) as u64 * 4294967296 + refusal.place as u64
}
