// Single bits of a 32-bit word, and the choices of a choice word: bit i is the choice of key i.
#![tactic(auto)]

ghost use Rattle.std.specs.Prelude.{◌≡◌, ◌<◌};
ghost use Rattle.filling.specs.Word.{choice_number};
ghost use Rattle.bits.specs.Bit.{set_bit};
ghost use Rattle.bits.specs.WordBits.{choice_in, toggle_bit};

// The word with bit p set, whether it was set before or not.
pub fn with_bit(word: u32, p: u32) -> u32
    requires { p < 32 }
    ensures answer { result ≡ set_bit word p }
{
    word | (1 << p)
}

// The choice of key i, 0 or 1.
pub fn choice_at(word: u32, i: u32) -> u32
    requires { i < 32 }
    ensures answer { result ≡ choice_number (choice_in word i) }
{
    (word >> i) % 2
}

// The word with the choice of key i toggled.
pub fn toggled(word: u32, i: u32) -> u32
    requires { i < 32 }
    ensures answer { result ≡ toggle_bit word i }
{
    word ^ (1 << i)
}
