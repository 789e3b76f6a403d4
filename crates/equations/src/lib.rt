// The least word that makes the places of a group all different, in an index without tags.
//
// Each place gives one linear equation over GF(2) in the bits of the word: an odd number of tags take it. n tags on n places are all
// different exactly where all n equations hold. They are brought into a table by their lowest bits (Gaussian elimination); then each bit
// of the word, from the highest down, is set only where its equation forces it, which gives the numerically least word.
#![tactic(auto)]

ghost use Rattle.std.specs.Prelude.{◌≡◌, take};
ghost use Rattle.refusal.specs.Limits.{group_max};
ghost use Rattle.lists.specs.UpTo.{up_to};
ghost use Rattle.places.specs.Array.{keys_of};
ghost use Rattle.equations.specs.Equation.{equation_of, least_of_rows};
ghost use Rattle.equations.specs.Stated.{Stated};

use elimination::{CONSTANT, CONSTANT_BIT, EQUATION_BITS};
use refusal::MEMBER_CELLS;

// The numerically least word of 32 bits that makes the places of n keys with these rows all different.
pub fn least_word(
    n: usize,
    places: &[u32; places::PLACE_CELLS],
    rows: &[u32; MEMBER_CELLS],
) -> Option<u32>
    requires { Stated n places.now rows.now }
    ensures answer { result ≡ least_of_rows 32 (keys_of n places.now) (take n rows.now) }
{
    let equations = equations_of(n, places, rows);
    let mut table = [0u64; EQUATION_BITS];
    for &equation in &equations[..n] {
        elimination::insert(&mut table, equation);
        // Nothing but the constant is left of an equation: no word solves it.
        if table[CONSTANT_BIT] != 0 {
            return None;
        }
    }
    Some((elimination::least_solution(&table) % CONSTANT) as u32)
}

// The equation of each place: the constant, and for each key its row, with the constant where the place is its first.
fn equations_of(
    n: usize,
    places: &[u32; places::PLACE_CELLS],
    rows: &[u32; MEMBER_CELLS],
) -> [u64; MEMBER_CELLS]
    requires { Stated n places.now rows.now }
    ensures answer { result ≡ up_to group_max (equation_of 32 (keys_of n places.now) (take n rows.now)) }
{
    let mut cells = [CONSTANT; MEMBER_CELLS];
    for i in 0..n {
        let row = rows[i] as u64;
        let first = places[i] as usize;
        cells[first] = cells[first] ^ (row ^ CONSTANT);
        let second = places[MEMBER_CELLS + i] as usize;
        cells[second] = cells[second] ^ row;
    }
    cells
}
