// The weight of a choice word: the order of choices as a number. Another order of choices is another `key_weight`.
#![tactic(auto)]

ghost use Rattle.std.specs.Prelude.{◌≡◌, ◌≤◌, ◌<◌};
ghost use Rattle.filling.specs.Weight.{key_weight};
ghost use Rattle.weight.specs.WordWeight.{word_weight, lighter_of};

use bits::choice_at;

// The lighter of two words of `count` choices; the first where they weigh the same.
pub fn lighter(a: u32, b: u32, count: u32) -> u32
    requires { count ≤ 32 }
    ensures answer { result ≡ lighter_of count a b }
{
    if weight_of(b, count) < weight_of(a, count) {
        b
    } else {
        a
    }
}

// What the second place of key i weighs: 2^32, and for the order between equals 2^(31 - i) more.
fn key_weight(i: u32) -> u64
    requires { i < 32 }
    ensures answer { result ≡ key_weight i }
{
    4294967296 + (1 << (31 - i))
}

// What the choices of the first `count` keys weigh together.
fn weight_of(word: u32, count: u32) -> u64
    requires { count ≤ 32 }
    ensures answer { result ≡ word_weight count word }
{
    let mut sum: u64 = 0;
    for i in 0..count {
        if choice_at(word, i) == 1 {
            sum += key_weight(i);
        }
    }
    sum
}
