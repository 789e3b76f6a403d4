// The seeds and words of all groups of an index without tags, found before anything is written.
#![tactic(auto)]

mod worked;

ghost use Rattle.std.specs.Prelude.{◌≡◌, ◌≤◌, length, unwrap_or};
ghost use Rattle.refusal.specs.Limits.{groups_max};
ghost use Rattle.lists.specs.First.{first};
ghost use Rattle.tagless_plan.specs.Words.{unworded, part_seed, part_word, stored_up_to, Searchable};

use refusal::GROUP_CELLS;

// Fills the seeds and words group by group, each from its own part of the ordered tags, and stops at the lowest group for which no seed
// has a word.
pub fn word_groups(
    ordered: &[u32],
    ends: &[usize],
    groups: usize,
    limit: u32,
    seeds: &mut [u32; GROUP_CELLS],
    words: &mut [u32; GROUP_CELLS],
) -> Option<usize>
    requires searchable { Searchable groups ordered.now ends.now limit × (groups ≤ groups_max) }
    requires seeds_len { (length seeds.old ≡ groups_max) × (length words.old ≡ groups_max) }
    ensures answer { result ≡ first (unworded ordered.now ends.now limit) groups }
    ensures seeds { seeds.new ≡ stored_up_to (part_seed ordered.now ends.now limit)
        (unwrap_or result groups) seeds.old }
    ensures words { words.new ≡ stored_up_to (part_word ordered.now ends.now limit)
        (unwrap_or result groups) words.old }
{
    let mut start = 0;
    for g in 0..groups {
        let end = ends[g];
        let Some((seed, word)) = tagless_seeds::least_worded_seed(&ordered[start..end], limit)
        else {
            return Some(g);
        };
        seeds[g] = seed;
        words[g] = word;
        start = end;
    }
    None
}
