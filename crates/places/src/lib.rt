// An array of candidate places: from cell 0 on the first places of all keys, from the middle on the second.
#![tactic(auto)]

// Cells for both candidate places of each tag of a group.
pub const PLACE_CELLS: usize = 2 * refusal::MEMBER_CELLS;
