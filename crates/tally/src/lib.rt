// The points and the edges of each part of a graph, counted by the part's label; how many parts there are, and whether any has more edges
// than points.
#![tactic(auto)]

ghost use Rattle.std.specs.Prelude.{◌≡◌, ◌≤◌, replicate};
ghost use Rattle.refusal.specs.Limits.{group_max};
ghost use Rattle.lists.specs.First.{first, is_some};
ghost use Rattle.places.specs.Array.{Candidates, keys_of};
ghost use Rattle.graph.specs.HowMany.{how_many};
ghost use Rattle.graph.specs.Parts.{points};
ghost use Rattle.tally.specs.Tally.{labelled, both_labelled, by_label, LabelsBelow, positive, more};

use refusal::MEMBER_CELLS;

// For each label, how many of the n places have it.
pub fn count_points(labels: &[u8; MEMBER_CELLS], n: usize, counts: &mut [u8; MEMBER_CELLS])
    requires { (n ≤ group_max) × LabelsBelow labels.now group_max × (counts.old ≡ replicate group_max 0) }
    ensures cells { counts.new ≡ by_label (labelled labels.now) (points n) }
{
    for place in 0..n {
        let label = labels[place] as usize;
        counts[label] += 1;
    }
}

// For each label, how many of the n tags have it at both places. A tag with equal places is an edge as any other.
pub fn count_edges(
    places: &[u32; places::PLACE_CELLS],
    labels: &[u8; MEMBER_CELLS],
    n: usize,
    counts: &mut [u8; MEMBER_CELLS],
)
    requires { (n ≤ group_max) × Candidates places.now n × LabelsBelow labels.now group_max × (counts.old ≡ replicate group_max 0) }
    ensures cells { counts.new ≡ by_label (both_labelled labels.now) (keys_of n places.now) }
{
    for i in 0..n {
        let first = places[i] as usize;
        let second = places[MEMBER_CELLS + i] as usize;
        let label = labels[first];
        if labels[second] == label {
            counts[label as usize] += 1;
        }
    }
}

// How many of the n labels are a part's: those that some place has. A place that no tag has is a part by itself.
pub fn part_count(counts: &[u8; MEMBER_CELLS], n: usize) -> u32
    requires { n ≤ group_max }
    ensures answer { result ≡ how_many (positive counts.now) (points n) }
{
    let mut number = 0;
    // A chain of `filter` and `count` has a branch a label here; of this loop the compiler takes eight labels at once.
    for &count in &counts[..n] {
        if 0 < count {
            number += 1;
        }
    }
    number
}

// Has any label more edges than points?
pub fn has_more_edges(points: &[u8; MEMBER_CELLS], edges: &[u8; MEMBER_CELLS], n: usize) -> bool
    requires { n ≤ group_max }
    ensures answer { result ≡ is_some (first (more points.now edges.now) n) }
{
    points[..n]
        .iter()
        .zip(&edges[..n])
        .any(|(point_count, edge_count)| point_count < edge_count)
}
