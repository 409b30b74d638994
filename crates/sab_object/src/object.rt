//! The acts of calls on the object.

ghost use Rattle.std.specs.Prelude.{◌≡◌, ◌<◌, ◌≤◌, false, length, map, slice_get, Some, vec_capacity};
ghost use Rattle.sab_block.specs.View.{block_len_of};
ghost use Rattle.sab_plan.specs.declared.plan.TheConstants.Plan.{MAX_AGENTS};
ghost use Rattle.sab_object.specs.Object.{DoesCall};
ghost use Rattle.sab_object.specs.Kept.{state_of, is_in, AreAgents, IsOutcome};

use crate::act::{act_access, find_notify, find_wait};
use crate::line::wake;
use sab_block::Block;
use sab_plan::{Answer, Call, PlanView, Waiter, What};

/// Makes the act of a call that has begun. The agent isn't in the line, which has room for all agents.
pub fn perform(
    blocks: &mut [Block],
    line: &mut Vec<Waiter>,
    woken: &mut [bool],
    agent: u32,
    can_block: bool,
    view: &PlanView,
    call: Call,
) -> What
    requires block { slice_get (map length blocks.old) view.now.block ≡ Some (block_len_of view.now.view) }
    requires agents { AreAgents (length woken.old) line.old.items }
    requires agent { agent < length woken.old }
    requires free { is_in line.old.items agent ≡ false }
    requires few { length woken.old ≤ MAX_AGENTS }
    requires room { MAX_AGENTS ≤ vec_capacity line.old }

    ensures does { DoesCall can_block agent view.now call (state_of blocks.old line.old.items woken.old) result
        (state_of blocks.new line.new.items woken.new) }
    ensures outcome { IsOutcome result }
    ensures lens { map length blocks.new ≡ map length blocks.old }
    ensures agents { AreAgents (length woken.old) line.new.items }
    ensures capacity { vec_capacity line.new ≡ vec_capacity line.old }
{
    match call {
        Call::Access { access, .. } => What::Acted(act_access(blocks, view, &access)),
        Call::Wait { index, value, .. } => match find_wait(blocks, view, index, value, can_block) {
            Ok(Some(place)) => {
                line.push_reserved(Waiter { place, agent });
                What::Enlisted
            }
            Ok(None) => What::Acted(Answer::NotEqual),
            Err(thrown) => What::Acted(Answer::Threw(thrown)),
        },
        Call::Notify { index, count, .. } => match find_notify(view, index) {
            Ok(place) => What::Acted(Answer::Count(wake(line, woken, place, count))),
            Err(thrown) => What::Acted(Answer::Threw(thrown)),
        },
    }
}
