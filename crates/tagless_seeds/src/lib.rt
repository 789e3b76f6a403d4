// The seed search of a group in an index without tags: the least seed below a limit that has a word, and its least word.
//
// The ones of the occupancy word drop most seeds; the others are decided by linear equations.
#![tactic(auto)]

mod worked;

ghost use Rattle.std.specs.Prelude.{◌≡◌, ◌≤◌, length};
ghost use Rattle.refusal.specs.Limits.{group_max, limit_max, seed_max};
ghost use Rattle.tagless_group.specs.Words.{worded_seed};
ghost use Rattle.tagless_seeds.specs.Rows.{rows_into};

use refusal::MEMBER_CELLS;

// The least seed below `limit` under which some word of 32 bits makes the group's places all different, and the numerically least such
// word.
pub fn least_worded_seed(tags: &[u32], limit: u32) -> Option<(u32, u32)>
    requires { (length tags.now ≤ group_max) × (limit ≤ limit_max) }
    ensures answer { result ≡ worded_seed tags.now limit }
{
    let n = seeds::size_of(tags);
    let mut places = [0u32; places::PLACE_CELLS];
    let mut rows = [0u32; MEMBER_CELLS];
    for seed in 0..limit {
        let occupied = seeds::lay_out(tags, n, seed, &mut places);
        if u32::count_ones(occupied) != n {
            continue;
        }
        lay_rows(tags, seed, &mut rows);
        if let Some(word) = equations::least_word(n as usize, &places, &rows) {
            return Some((seed, word));
        }
    }
    None
}

// Lays out the rows of the tags under a seed, from cell 0 on. The other cells stay.
fn lay_rows(tags: &[u32], seed: u32, rows: &mut [u32; MEMBER_CELLS])
    requires { (length tags.now ≤ group_max) × (seed ≤ seed_max) × (length rows.old ≡ group_max) }
    ensures cells { rows.new ≡ rows_into tags.now seed rows.old }
{
    let multiplier = tagless_group::row_multiplier(seed);
    for (i, &tag) in tags.iter().enumerate() {
        rows[i] = hash::wrapping_multiply(multiplier, tag);
    }
}
