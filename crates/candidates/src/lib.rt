// The candidate places of a group's tags under a seed, laid into an array of places.
#![tactic(auto)]

ghost use Rattle.std.specs.Prelude.{◌≡◌, map, ◌*◌, ◌≤◌, length};
ghost use Rattle.std.proofs.Math.Seq.{paste};
ghost use Rattle.refusal.specs.Limits.{group_max, seed_max};
ghost use Rattle.hash.specs.Formula.{hashed};
ghost use Rattle.group.specs.Group.{candidates};
ghost use Rattle.places.specs.Array.{laid_into};

use refusal::MEMBER_CELLS;

// Lays out the candidate places of the tags among n places: cell i has the first place of tag i, cell MEMBER_CELLS + i the second. The
// other cells stay.
pub fn candidate_places(tags: &[u32], n: u32, seed: u32, places: &mut [u32; places::PLACE_CELLS])
    requires { (length tags.now ≤ group_max) × (seed ≤ seed_max) × (length places.old ≡ 2 * group_max) }
    ensures cells { places.new ≡ laid_into (candidates n seed tags.now) places.old }
{
    lay(tags, n, hash::multiplier(seed, 0), 0, places);
    lay(tags, n, hash::multiplier(seed, 1), MEMBER_CELLS, places);
}

// Lays out the places of the tags by one multiplier, from a cell on. A loop of its own for each multiplier: the compiler takes several
// tags at once.
fn lay(tags: &[u32], n: u32, multiplier: u32, from: usize, places: &mut [u32; places::PLACE_CELLS])
    requires { (length tags.now ≤ group_max) × (from ≤ group_max) × (length places.old ≡ 2 * group_max) }
    ensures cells { places.new
        ≡ paste places.old from (map (hashed multiplier n) tags.now) (length tags.now) }
{
    for (i, &tag) in tags.iter().enumerate() {
        places[from + i] = hash::hashed(multiplier, n, tag);
    }
}
