//! What a machine looks up in its plan.

ghost use Rattle.std.specs.Prelude.{◌≡◌, ◌<◌, length, slice_get, option_map, Some, IfSome};
ghost use Rattle.sab_block.specs.View.{block_len_of};
ghost use Rattle.sab_plan.specs.Call.{view_of};
ghost use Rattle.sab_plan.specs.Script.{ScriptParts};
ghost use Rattle.sab_plan.specs.Plan.{call_of, is_timed};

use sab_plan::{Call, Plan, PlanView};

/// A call of an agent.
pub fn call_at(plan: &Plan, agent: u32, call: u32) -> Option<Call>
    requires { agent < length plan.now.scripts }
    ensures call { result ≡ call_of plan.now agent call }
    ensures view { IfSome result (λ c. view_of c < length plan.now.views) }
{
    let script = &plan.scripts()[agent as usize];
    script.calls.get(call as usize).copied()
}

/// Whether a call of an agent is a wait with a timeout.
pub fn is_timed(plan: &Plan, agent: u32, call: u32) -> bool
    requires { agent < length plan.now.scripts }
    ensures { result ≡ is_timed (call_of plan.now agent call) }
{
    matches!(
        call_at(plan, agent, call),
        Some(Call::Wait {
            timeout: Some(_),
            ..
        })
    )
}

/// A view, by its position.
pub fn view_at(plan: &Plan, view: u32) -> PlanView
    requires { view < length plan.now.views }
    ensures view { slice_get plan.now.views view ≡ Some result }
    ensures block_len { slice_get plan.now.lens result.block ≡ Some (block_len_of result.view) }
{
    plan.views()[view as usize]
}

/// Whether an agent can block.
pub fn can_block(plan: &Plan, agent: u32) -> bool
    requires { agent < length plan.now.scripts }
    ensures { option_map (λ (s : ScriptParts). s.can_block) (slice_get plan.now.scripts agent) ≡ Some result }
{
    let script = &plan.scripts()[agent as usize];
    script.can_block
}
