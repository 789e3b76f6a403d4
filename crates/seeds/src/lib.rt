// The seed search of a group: the least seed below a limit under which some choice sequence fills.
//
// A seed is tested by cuckoo insertion with a bounded eviction chain (document 001, section 4); the ones of the occupancy word drop
// most seeds before that. The choices that the insertion ends with fill, but are not those taken: they are not kept.
#![tactic(auto)]

ghost use Rattle.std.specs.Prelude.{◌≡◌, ◌*◌, ◌≤◌, length};
ghost use Rattle.refusal.specs.Limits.{group_max, limit_max, seed_max};
ghost use Rattle.group.specs.Group.{group_under, least_seed};
ghost use Rattle.places.specs.Array.{laid_into};
ghost use Rattle.seeds.specs.Occupancy.{occupancy_of};
ghost use Rattle.seeds.specs.Tried.{tried, laid_after};

// Each number up to the most tags of a group, as one of 32 bits.
const SIZES: [u32; refusal::MEMBER_CELLS + 1] = [
    0, 1, 2, 3, 4, 5, 6, 7, 8, 9, 10, 11, 12, 13, 14, 15, 16, 17, 18, 19, 20, 21, 22, 23, 24, 25,
    26, 27, 28, 29, 30, 31, 32,
];

// The number of tags of a group. Read from a table, it is known to the compiler as a number of 32 bits, which it needs to hash several
// tags at once.
pub fn size_of(tags: &[u32]) -> u32
    requires { length tags.now ≤ group_max }
    ensures answer { result ≡ length tags.now }
{
    SIZES[tags.len()]
}

// Lays out the candidate places of n tags under a seed, and answers the occupancy word.
pub fn lay_out(tags: &[u32], n: u32, seed: u32, places: &mut [u32; places::PLACE_CELLS]) -> u32
    requires { (length tags.now ≤ group_max) × (n ≡ length tags.now) × (seed ≤ seed_max) × (length places.old ≡ 2 * group_max) }
    ensures answer { result ≡ occupancy_of (group_under tags.now seed) }
    ensures cells { places.new ≡ laid_into (group_under tags.now seed) places.old }
{
    candidates::candidate_places(tags, n, seed, places);
    let mut first: u32 = 0;
    let mut second: u32 = 0;
    for i in 0..tags.len() {
        first = bits::with_bit(first, places[i]);
        second = bits::with_bit(second, places[refusal::MEMBER_CELLS + i]);
    }
    first | second
}

// The least seed below `limit` under which some choice sequence fills the group; the candidate places under it stay in the cells.
pub fn least_seed(tags: &[u32], limit: u32, places: &mut [u32; places::PLACE_CELLS]) -> Option<u32>
    requires { (length tags.now ≤ group_max) × (limit ≤ limit_max) × (length places.old ≡ 2 * group_max) }
    ensures answer { result ≡ least_seed tags.now limit }
    ensures cells { places.new ≡ laid_after tags.now (tried result limit) places.old }
{
    let n = size_of(tags);
    let mut next = 0;
    let seed = 'seeds: loop {
        if next >= limit {
            return None;
        }
        let s = next;
        next += 1;
        let occupied = lay_out(tags, n, s, places);
        if u32::count_ones(occupied) != n {
            continue 'seeds;
        }
        // For each place 0 where it is free, otherwise one more than the other place of the tag that has it. Zeroed for each seed that is
        // not dropped: its insertion begins anew.
        let mut others = [0u32; refusal::MEMBER_CELLS];
        let mut seated: u32 = 0;
        let mut place = places[0];
        let mut other = places[refusal::MEMBER_CELLS];
        let mut left: u32 = 1;
        // One turn: the moving tag, inserted or evicted last, takes its place.
        'evict: loop {
            if seated == n {
                break 'seeds s;
            }
            let taken = others[place as usize];
            others[place as usize] = other + 1;
            if taken == 0 {
                seated += 1;
                if seated < n {
                    // The next tag goes to its second place where its first is taken.
                    place = places[seated as usize];
                    other = places[refusal::MEMBER_CELLS + seated as usize];
                    if others[place as usize] != 0 {
                        let first = place;
                        place = other;
                        other = first;
                    }
                }
                left = 2 * seated + 1;
            } else {
                // 2k + 1 evictions with k tags seated are enough wherever something fills.
                if left == 0 {
                    break 'evict;
                }
                left -= 1;
                other = place;
                place = taken - 1;
            }
        }
    };
    Some(seed)
}
