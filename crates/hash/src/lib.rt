// Hashing a tag: its group, and its place in a group under a seed and a choice.
//
// The method is odd-multiply-shift (document 000, definition 5), with the high part of the product in place of the shift, so that
// the table may have any size. Wrapping is intended in the products and only there: each goes through `wrapping_multiply`.
#![tactic(auto)]

mod worked;

ghost use Rattle.std.specs.Prelude.{◌≡◌, ◌≤◌};
ghost use Rattle.refusal.specs.Limits.{seed_max};
ghost use Rattle.hash.specs.Formula.{product, high_part, hashed, group_of, multiplier, place_of};
ghost use Rattle.hash.specs.OneTag.{place_of_one_tag};
ghost use Rattle.refusal.specs.Answer.{outcome};

use refusal::{Reason, Refusal};

// The multipliers G and K of document 01.
const G: u32 = 2654435761;

pub const K: u32 = 2246822507;

// The operation "place of one tag": the place of `tag` in a group of `n` tags under a seed and a choice, or 1, 2, 3.
pub fn place_of_one_tag(n: u32, seed: u32, choice: u32, tag: u32) -> Result<u32, Refusal>
    ensures answer { outcome result ≡ place_of_one_tag n seed choice tag }
{
    if refusal::outside(1, refusal::GROUP_MAX, n) {
        return Err(Reason::SizeOutOfRange.into());
    }
    if refusal::SEED_MAX < seed {
        return Err(Reason::SeedOutOfRange.into());
    }
    if 1 < choice {
        return Err(Reason::ChoiceOutOfRange.into());
    }
    Ok(place_of(n, seed, choice, tag))
}

// The group of a tag among `groups` groups.
pub fn group_of(groups: u32, tag: u32) -> u32
    ensures answer { result ≡ group_of groups tag }
{
    hashed(K, groups, tag)
}

// The multiplier for a seed and a choice.
pub fn multiplier(seed: u32, choice: u32) -> u32
    requires { (seed ≤ seed_max) × (choice ≤ 1) }
    ensures answer { result ≡ multiplier seed choice }
{
    wrapping_multiply(4 * seed + 2 * choice + 1, G)
}

// The place of a tag in a group of `n` tags, under a seed and a choice.
pub fn place_of(n: u32, seed: u32, choice: u32, tag: u32) -> u32
    requires { (seed ≤ seed_max) × (choice ≤ 1) }
    ensures answer { result ≡ place_of n seed choice tag }
{
    hashed(multiplier(seed, choice), n, tag)
}

// A tag hashed by a multiplier to the range from 0 to n - 1: both groups and places.
pub fn hashed(a: u32, n: u32, tag: u32) -> u32
    ensures answer { result ≡ hashed a n tag }
{
    high_part(wrapping_multiply(a, tag), n)
}

// The product modulo 2^32.
pub fn wrapping_multiply(a: u32, b: u32) -> u32
    ensures answer { result ≡ product a b }
{
    ((a as u64) * (b as u64) % 4294967296) as u32
}

// The high 32 bits of the product: h scaled to the range from 0 to n - 1.
pub fn high_part(h: u32, n: u32) -> u32
    ensures answer { result ≡ high_part h n }
{
    ((h as u64) * (n as u64) / 4294967296) as u32
}
