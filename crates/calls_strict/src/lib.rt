// The call of the C boundary for the strict check, with its 64-bit answer. Document 02, §7.
#![tactic(auto)]

mod worked;

ghost use Rattle.std.specs.Prelude.{◌≡◌};
ghost use Rattle.calls_strict.specs.Strict.{strict_check_answer, StrictAnswerCondition};

// Checks an image strictly, and answers 0 for one that building writes for some list.
pub fn strict_check(image: &[u8]) -> u64
    ensures answer { result ≡ strict_check_answer image.now }
    ensures condition { StrictAnswerCondition image.now result }
{
    match strict_checking::strict_check(image) {
        Ok(()) => 0,
        Err(refusal) => answer64::refusal_answer(refusal),
    }
}
