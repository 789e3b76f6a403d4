// The operation "building": planning, and then writing with the same list and the plan as it was yielded.
#![tactic(auto)]

mod worked;

ghost use Rattle.std.specs.Prelude.{◌≡◌, length};
ghost use Rattle.numbering.specs.Planning.{plan_after};
ghost use Rattle.numbering.specs.Building.{building_of, buffer_after};
ghost use Rattle.condition3.specs.Condition3.{Condition3};
ghost use Rattle.refusal.specs.Answer.{outcome};

use refusal::Refusal;

// The operation "building", for any list, any B and L, and any buffer. The plan is lent out; if planning refuses, writing is not begun.
pub fn build(
    tags: &[u32],
    groups: u32,
    limit: u32,
    plan: &mut [u32; refusal::PLAN_CELLS],
    buffer: &mut [u8],
) -> Result<usize, Refusal>
    ensures answer { outcome result ≡ building_of tags.now groups limit (length buffer.old) }
    ensures plan { plan.new ≡ plan_after tags.now groups limit }
    ensures bytes { buffer.new ≡ buffer_after tags.now groups limit buffer.old }
    ensures condition3 { Condition3 tags.now groups limit (length buffer.old) plan.new
        (outcome result) buffer.new }
{
    planning::plan_list(tags, groups, limit, plan)?;
    writing::write_list(tags, plan, buffer)
}
