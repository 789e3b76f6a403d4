// The word of a group under a seed: the choice word of the sequence taken, which gives each tag a place of its own.
#![tactic(auto)]

ghost use Rattle.std.specs.Prelude.{◌≡◌, ◌≤◌, length};
ghost use Rattle.refusal.specs.Limits.{group_max, seed_max};
ghost use Rattle.group.specs.Group.{word_under};

// The word under this one seed, or that nothing fills: no other seed is tried.
pub fn word_under(tags: &[u32], seed: u32) -> Option<u32>
    requires { (length tags.now ≤ group_max) × (seed ≤ seed_max) }
    ensures answer { result ≡ word_under tags.now seed }
{
    let mut places = [0u32; places::PLACE_CELLS];
    candidates::candidate_places(tags, tags.len() as u32, seed, &mut places);
    sequence::choices_taken(&places, tags.len() as u32)
}
