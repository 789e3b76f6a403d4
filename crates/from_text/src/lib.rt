// Planning, writing and building from a list text: the text's list is read, and handed on.
#![tactic(auto)]

ghost use Rattle.std.specs.Prelude.{◌≡◌, length};
ghost use Rattle.refusal.specs.Limits.{tags_max};
ghost use Rattle.refusal.specs.Outcome.{answered_by};
ghost use Rattle.list.specs.Reading.{cells_after};
ghost use Rattle.list.specs.Answer.{head_of};
ghost use Rattle.refusal.specs.Answer.{outcome};
ghost use Rattle.numbering.specs.FromText.{list_from_text, planning_from_text, plan_from_text, writing_from_text, written_from_text};
ghost use Rattle.numbering.specs.FromText.{building_from_text, buffer_from_text};
ghost use Rattle.from_text.specs.Condition3.{TextPlanningCondition3, TextWritingCondition3, TextCondition3};

use list::ListHead;
use refusal::{Reason, Refusal};

// Reads the list of a text into cells for as many tags as a list may have. A text above 65,527 bytes is refused unexamined.
pub fn read_text(text: &[u8], cells: &mut [u32]) -> Result<ListHead, Refusal>
    requires { length cells.old ≡ tags_max }
    ensures answer { outcome result ≡ answered_by head_of (list_from_text text.now) }
    ensures cells { cells.new ≡ cells_after (list_from_text text.now) cells.old }
{
    if refusal::TEXT_MAX < text.len() {
        return Err(Reason::TooManyTags.into());
    }
    list::read_list(text, cells)
}

// Planning from a list text, for any text. A text that is refused leaves zeros in the plan too.
pub fn plan_from_text(text: &[u8], plan: &mut [u32; refusal::PLAN_CELLS]) -> Result<u32, Refusal>
    ensures answer { outcome result ≡ planning_from_text text.now }
    ensures plan { plan.new ≡ plan_from_text text.now }
    ensures condition3 { TextPlanningCondition3 text.now (outcome result) plan.new }
{
    let mut cells = [0u32; refusal::TAG_CELLS];
    match read_text(text, &mut cells) {
        Ok(listed) => {
            planning::plan_list(&cells[..listed.count], listed.groups, listed.limit, plan)
        }
        // The plan is written once the text is read, not before.
        Err(refusal) => {
            *plan = [0; refusal::PLAN_CELLS];
            Err(refusal)
        }
    }
}

// Writing from a list text, for any text, any plan and any buffer. The text's B and L are read, and mean nothing.
pub fn write_from_text(
    text: &[u8],
    plan: &[u32; refusal::PLAN_CELLS],
    buffer: &mut [u8],
) -> Result<usize, Refusal>
    ensures answer { outcome result
        ≡ writing_from_text text.now plan.now (length buffer.old) }
    ensures bytes { buffer.new
        ≡ written_from_text text.now plan.now buffer.old }
    ensures condition3 { TextWritingCondition3 text.now plan.now (outcome result) buffer.new }
{
    let mut cells = [0u32; refusal::TAG_CELLS];
    let listed = read_text(text, &mut cells)?;
    writing::write_list(&cells[..listed.count], plan, buffer)
}

// Building from a list text, for any text and any buffer.
pub fn build_from_text(text: &[u8], buffer: &mut [u8]) -> Result<usize, Refusal>
    ensures answer { outcome result ≡ building_from_text text.now (length buffer.old) }
    ensures bytes { buffer.new ≡ buffer_from_text text.now buffer.old }
    ensures condition3 { TextCondition3 text.now (length buffer.old) (outcome result) buffer.new }
{
    let mut cells = [0u32; refusal::TAG_CELLS];
    let ListHead {
        groups,
        limit,
        count,
    } = read_text(text, &mut cells)?;
    let mut plan = [0u32; refusal::PLAN_CELLS];
    building::build(&cells[..count], groups, limit, &mut plan, buffer)
}
