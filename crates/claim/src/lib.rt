// Condition 3 of the real functions: planning, writing, and then lookup in what was written.
#![tactic(auto)]

mod worked;

ghost use Rattle.std.specs.Prelude.{◌≡◌, length};
ghost use Rattle.numbering.specs.Planning.{plan_after};
ghost use Rattle.numbering.specs.Building.{building_of, buffer_after};
ghost use Rattle.condition3.specs.Condition3.{Condition3};
ghost use Rattle.lookup.specs.Answer.{lookup_outcome};
ghost use Rattle.claim.specs.Claim.{claim_of};

use lookup::LookupAnswer;

// Builds, and looks the tag up in the written image: the buffer's first bytes, as many as building answers. For any list, B, L, buffer
// and tag; a refusal is building's. The plan is lent out.
pub fn build_then_look_up(
    tags: &[u32],
    groups: u32,
    limit: u32,
    plan: &mut [u32; refusal::PLAN_CELLS],
    buffer: &mut [u8],
    tag: u32,
) -> LookupAnswer
    ensures answer { lookup_outcome result ≡ claim_of tags.now groups limit (length buffer.old) tag }
    ensures plan { plan.new ≡ plan_after tags.now groups limit }
    ensures bytes { buffer.new ≡ buffer_after tags.now groups limit buffer.old }
    ensures condition3 { Condition3 tags.now groups limit (length buffer.old) plan.new
        (building_of tags.now groups limit (length buffer.old)) buffer.new }
{
    match building::build(tags, groups, limit, plan, buffer) {
        Ok(size) => lookup::lookup(&buffer[..size], tag),
        Err(refusal) => LookupAnswer::Refused(refusal),
    }
}
