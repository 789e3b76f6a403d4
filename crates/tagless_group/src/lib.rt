// The row of a tag and the choice that a word makes for it, in an index without tags.
#![tactic(auto)]

ghost use Rattle.std.specs.Prelude.{◌≡◌, ◌+◌, ◌*◌, ◌≤◌};
ghost use Rattle.refusal.specs.Limits.{seed_max};
ghost use Rattle.hash.specs.Formula.{K, product};
ghost use Rattle.filling.specs.Word.{choice_number};
ghost use Rattle.tagless_group.specs.Row.{row_of};
ghost use Rattle.tagless_group.specs.Words.{choice_by};

// What the rows under a seed are multiplied by: (2s + 1) × K mod 2^32.
pub fn row_multiplier(seed: u32) -> u32
    requires { seed ≤ seed_max }
    ensures answer { result ≡ product (2 * seed + 1) K }
{
    hash::wrapping_multiply(2 * seed + 1, hash::K)
}

// The row of a tag under a seed. For many tags under one seed the multiplier is taken once, and each product by itself.
pub fn row_of(seed: u32, tag: u32) -> u32
    requires { seed ≤ seed_max }
    ensures answer { result ≡ row_of seed tag }
{
    hash::wrapping_multiply(row_multiplier(seed), tag)
}

// The choice of a tag, 0 or 1, under a seed and a word: the parity of the ones in its row AND the word.
pub fn choice_by(word: u32, seed: u32, tag: u32) -> u32
    requires { seed ≤ seed_max }
    ensures answer { result ≡ choice_number (choice_by word seed tag) }
{
    parity::parity(row_of(seed, tag) as u64, word as u64)
}
