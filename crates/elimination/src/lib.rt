// Linear equations over GF(2) in the bits of a word of 32 bits: a table by lowest bits, and the least word that solves it.
//
// An equation is a word of 33 bits, the highest its constant. A word solves it where, with the constant's bit set, it shares an even
// number of ones with it.
#![tactic(auto)]

ghost use Rattle.std.specs.Prelude.{◌≡◌, ◌^◌, ◌<◌, get_or};
ghost use Rattle.elimination.specs.Table.{Table, Inserted, LeastSolution};

// The bits of an equation; the bit that is its constant, and that bit alone.
pub const EQUATION_BITS: usize = 33;

pub const CONSTANT_BIT: usize = 32;

pub const CONSTANT: u64 = 4294967296;

// Brings an equation into the table: it is reduced by the table's equations until its lowest bit has a free cell, or nothing is left.
pub fn insert(table: &mut [u64; EQUATION_BITS], equation: u64)
    requires { Table 32 table.old × (equation < 2 ^ 33) }
    ensures cells { Inserted 32 table.old equation table.new }
{
    let mut left = equation;
    while left != 0 {
        let bit = u64::trailing_zeros(left) as usize;
        let pivot = table[bit];
        if pivot == 0 {
            table[bit] = left;
            return;
        }
        left = left ^ pivot;
    }
}

// The least word, with the constant's bit, that solves the table's equations. A bit with no equation stays 0.
pub fn least_solution(table: &[u64; EQUATION_BITS]) -> u64
    requires { Table 32 table.now × (get_or table.now 32 0 ≡ 0) }
    ensures answer { LeastSolution 32 table.now result }
{
    let mut word = CONSTANT;
    for bit in (0..CONSTANT_BIT).rev() {
        let pivot = table[bit];
        if pivot != 0 && parity::parity(pivot, word) == 1 {
            word = word ^ (1 << bit);
        }
    }
    word
}
