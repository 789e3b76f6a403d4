// The parity of the ones that two words share.
#![tactic(auto)]

ghost use Rattle.std.specs.Prelude.{◌≡◌};
ghost use Rattle.parity.specs.Parity.{parity};

// The parity of the ones in `a` AND `b`, 0 or 1. The words have 64 bits: those of an equation, and with room a row and a group's word.
pub fn parity(a: u64, b: u64) -> u32
    ensures answer { result ≡ parity a b }
{
    u64::count_ones(a & b) % 2
}
