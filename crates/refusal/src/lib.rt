// Refusals: the reason for one, the place that it names, and the paper's number of each reason; and the ranges of documents 01 and 02.
#![tactic(auto)]

ghost use Rattle.std.specs.Prelude.{◌≡◌};
ghost use Rattle.refusal.specs.Limits.{outside};
ghost use Rattle.refusal.specs.Reason.{reason_number};

// The ranges of documents 01 and 02: the greatest tag; the most tags of a list, groups, and tags of a group; the greatest seed limit and
// seed; and the most bytes of a list text that the printer and the C boundary examine.
pub const TAG_MAX: u64 = 4294967295;

pub const TAGS_MAX: usize = 4096;

pub const GROUPS_MAX: u32 = 512;

pub const GROUP_MAX: u32 = 32;

pub const LIMIT_MAX: u32 = 65536;

pub const SEED_MAX: u32 = 65535;

pub const TEXT_MAX: usize = 65527;

// The tag that plant numbering reserves for an unwired point (document 02, §1): it belongs to nobody.
pub const UNWIRED: u32 = 0;

// How many cells an array has: one for each tag of a list, one for each group, one for each tag of a group; and for a plan, one for B
// and one for each group.
pub const TAG_CELLS: usize = TAGS_MAX;

pub const GROUP_CELLS: usize = GROUPS_MAX as usize;

pub const MEMBER_CELLS: usize = GROUP_MAX as usize;

pub const PLAN_CELLS: usize = 1 + GROUP_CELLS;

// Why an operation refuses: what is the matter with its input. Documents 01 and 02 number them 1 to 19, in this order.
#[derive(Clone, Copy, Debug, PartialEq, Eq)]
pub enum Reason {
    SizeOutOfRange,
    SeedOutOfRange,
    ChoiceOutOfRange,
    LimitOutOfRange,
    TooManyTags,
    NotAscending,
    NoSeed,
    GroupCountOutOfRange,
    // A buffer, or a list's cells, shorter than what is to be written there.
    BufferTooShort,
    GroupTooLarge,
    WrongLength,
    MalformedLine,
    FaultyGroup,
    WrongSlot,
    RepeatedTag,
    MalformedList,
    // Tag 0 where a tank's tag is asked for.
    UnwiredTag,
    // A plan's seed under which no choice sequence fills the group.
    SeedDoesNotServe,
    // A group of an image whose seed or slots are not those that building gives its tags.
    NotAsBuilt,
}

// A refusal: the reason, and the line, index, group or slot that it names, counted from 0; 0 where it names none.
#[derive(Clone, Copy, Debug, PartialEq, Eq)]
pub struct Refusal {
    pub reason: Reason,
    pub place: usize,
}

impl Reason {
    // The refusal for this reason, at the line, index, group or slot that it names.
    pub fn at(self, place: usize) -> Refusal
        ensures answer { result ≡ record { reason = self; place = place } }
    {
        Refusal {
            reason: self,
            place,
        }
    }
}

// The refusal for a reason that names no place.
impl From<Reason> for Refusal {
    ghost from_gives = { λ reason refusal. refusal ≡ record { reason = reason; place = 0 } };

    fn from(reason: Reason) -> Refusal {
        reason.at(0)
    }
}

// The paper's number of a reason.
impl From<Reason> for u32 {
    ghost from_gives = { λ reason number. number ≡ reason_number reason };

    fn from(reason: Reason) -> u32 {
        match reason {
            Reason::SizeOutOfRange => 1,
            Reason::SeedOutOfRange => 2,
            Reason::ChoiceOutOfRange => 3,
            Reason::LimitOutOfRange => 4,
            Reason::TooManyTags => 5,
            Reason::NotAscending => 6,
            Reason::NoSeed => 7,
            Reason::GroupCountOutOfRange => 8,
            Reason::BufferTooShort => 9,
            Reason::GroupTooLarge => 10,
            Reason::WrongLength => 11,
            Reason::MalformedLine => 12,
            Reason::FaultyGroup => 13,
            Reason::WrongSlot => 14,
            Reason::RepeatedTag => 15,
            Reason::MalformedList => 16,
            Reason::UnwiredTag => 17,
            Reason::SeedDoesNotServe => 18,
            Reason::NotAsBuilt => 19,
        }
    }
}

// Is x outside the range from low to high?
pub fn outside(low: u32, high: u32, x: u32) -> bool
    ensures answer { result ≡ outside low high x }
{
    x < low || high < x
}
