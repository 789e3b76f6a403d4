// Labels of places: a place has the label of its part, which is one of the part's places, and places of one part have one label.
#![tactic(auto)]

ghost use Rattle.std.specs.Prelude.{◌≡◌, map, ◌≤◌, length};
ghost use Rattle.refusal.specs.Limits.{group_max};
ghost use Rattle.graph.specs.Label.{merged, labels_of};
ghost use Rattle.places.specs.Array.{Candidates, keys_of};

use refusal::MEMBER_CELLS;

// The labels of all places by the first `count` keys of an array of candidate places. Each place begins as a part of its own, and each
// key, the last one first, makes one part of the two that its places lie in.
pub fn part_labels(places: &[u32; places::PLACE_CELLS], count: u32, labels: &mut [u8; MEMBER_CELLS])
    requires { (count ≤ group_max) × Candidates places.now count × (length labels.old ≡ group_max) }
    ensures cells { labels.new ≡ labels_of group_max (keys_of count places.now) }
{
    for (v, label) in labels.iter_mut().enumerate() {
        *label = v as u8;
    }
    for i in (0..count as usize).rev() {
        let first = places[i] as usize;
        let second = places[MEMBER_CELLS + i] as usize;
        let into = labels[first];
        let from = labels[second];
        merge(labels, into, from);
    }
}

// Two parts become one: every label `from` becomes `into`.
fn merge(labels: &mut [u8; MEMBER_CELLS], into: u8, from: u8)
    requires { length labels.old ≡ group_max }
    ensures cells { labels.new ≡ map (merged into from) labels.old }
{
    for cell in 0..MEMBER_CELLS {
        labels[cell] = merged(labels[cell], into, from);
    }
}

// A label behind the merge. Every cell is written, whether its label changes or not: so the compiler takes several at once.
fn merged(label: u8, into: u8, from: u8) -> u8
    ensures answer { result ≡ merged into from label }
{
    if label == from { into } else { label }
}
