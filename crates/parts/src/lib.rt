// The operation "counting parts", a second test of a seed (document 02, §8): the connected parts of the graph whose points are the places
// and whose edges are the tags are found and counted. No tag is moved.
#![tactic(auto)]

mod worked;

ghost use Rattle.std.specs.Prelude.{◌≡◌, ◌≤◌, length};
ghost use Rattle.refusal.specs.Limits.{group_max, seed_max};
ghost use Rattle.group.specs.Group.{group_under};
ghost use Rattle.graph.specs.Parts.{parts_of};
ghost use Rattle.parts_condition.specs.Condition.{PartsCondition};
ghost use Rattle.parts.specs.Answer.{parts_meaning, parts_outcome};
ghost use Rattle.counting.specs.Counting.{counting_of};

use refusal::{MEMBER_CELLS, Reason, Refusal};

// Whether the seed serves the group, and the number of parts.
#[derive(Clone, Copy, Debug, PartialEq, Eq)]
pub struct Parts {
    pub serves: bool,
    pub number: u32,
}

// The operation "counting parts", for any list and any seed.
pub fn count_parts(tags: &[u32], seed: u32) -> Result<Parts, Refusal>
    ensures answer { parts_outcome result ≡ counting_of tags.now seed }
    ensures condition { PartsCondition tags.now seed (parts_outcome result) }
{
    if refusal::SEED_MAX < seed {
        return Err(Reason::SeedOutOfRange.into());
    }
    if (refusal::GROUP_MAX as usize) < tags.len() {
        return Err(Reason::TooManyTags.into());
    }
    if let Some(i) = group::first_not_above(tags) {
        return Err(Reason::NotAscending.at(i));
    }
    if group::starts_unwired(tags) {
        return Err(Reason::UnwiredTag.into());
    }
    Ok(parts_under(tags, seed))
}

// The parts of a group's graph under a seed: its places are the points, its tags the edges.
fn parts_under(tags: &[u32], seed: u32) -> Parts
    requires { (length tags.now ≤ group_max) × (seed ≤ seed_max) }
    ensures answer { parts_meaning result ≡ parts_of (length tags.now) (group_under tags.now seed) }
{
    let n = tags.len();
    let mut places = [0u32; places::PLACE_CELLS];
    candidates::candidate_places(tags, n as u32, seed, &mut places);
    let mut labels = [0u8; MEMBER_CELLS];
    labels::part_labels(&places, n as u32, &mut labels);
    let mut points = [0u8; MEMBER_CELLS];
    tally::count_points(&labels, n, &mut points);
    let mut edges = [0u8; MEMBER_CELLS];
    tally::count_edges(&places, &labels, n, &mut edges);
    Parts {
        serves: !tally::has_more_edges(&points, &edges, n),
        number: tally::part_count(&points, n),
    }
}
