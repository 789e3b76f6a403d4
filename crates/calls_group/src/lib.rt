// Calls of the C boundary on one group: placing it, and counting its parts, each with one 64-bit answer.
#![tactic(auto)]

mod worked;

ghost use Rattle.std.specs.Prelude.{◌≡◌};
ghost use Rattle.calls_group.specs.Place.{place_answer, word_after, PlaceCondition3};
ghost use Rattle.calls_group.specs.Parts.{parts_answer, PartsAnswerCondition};

// Places a group: answers its least seed, and leaves the choice word in the cell.
pub fn place_group(tags: &[u32], limit: u32, word: &mut [u32; 1]) -> u64
    ensures answer { result ≡ place_answer tags.now limit }
    ensures cell { word.new ≡ word_after tags.now limit word.old }
    ensures condition3 { PlaceCondition3 tags.now limit result word.new }
{
    match placing::place_group(tags, limit) {
        Ok(placed) => {
            *word = [placed.word];
            placed.seed as u64
        }
        Err(refusal) => answer64::refusal_answer(refusal),
    }
}

// Counts the parts of a group's graph under a seed: answers twice their number, and one more if the seed serves.
pub fn count_parts(tags: &[u32], seed: u32) -> u64
    ensures answer { result ≡ parts_answer tags.now seed }
    ensures condition { PartsAnswerCondition tags.now seed result }
{
    match parts::count_parts(tags, seed) {
        Ok(parts) => 2 * parts.number as u64 + parts.serves as u64,
        Err(refusal) => answer64::refusal_answer(refusal),
    }
}
