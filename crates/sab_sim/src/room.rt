//! What a report says about the blocks and the agents, put into room that was reserved.

ghost use Rattle.std.specs.Prelude.{◌≡◌, ◌<◌, ◌≤◌, ◌^◌, [], length, All, vec_capacity};
ghost use Rattle.sab_plan.specs.Script.{ScriptParts};
ghost use Rattle.sab_plan.specs.Report.{items_of_each};
ghost use Rattle.sab_sim.specs.Sim.{standing_from};

use crate::agent::Agent;
use sab_block::Block;
use sab_plan::{Progress, Script};

/// Hands over the bytes of each block.
pub fn hand_over(room: &mut Vec<Vec<u8>>, blocks: Vec<Block>)
    requires empty { room.old.items ≡ [] }
    requires capacity { length blocks.items ≤ vec_capacity room.old }
    ensures { items_of_each room.new.items ≡ blocks.items }
{
    for block in blocks {
        room.push_reserved(block.into_bytes());
    }
}

/// Reports how many of its calls each agent returned from, and how many it has.
pub fn report_progress(room: &mut Vec<Progress>, scripts: &[Script], agents: &[Agent])
    requires empty { room.old.items ≡ [] }
    requires size { length agents.now ≡ length scripts.now }
    requires capacity { length scripts.now ≤ vec_capacity room.old }
    requires few { All (λ (s : ScriptParts). length s.calls ≤ 1000) scripts.now }
    ensures { room.new.items ≡ standing_from agents.now 0 scripts.now }
{
    for (i, script) in scripts.iter().enumerate() {
        let progress = Progress {
            returned: agents[i].returned,
            total: script.calls.len() as u32,
        };
        room.push_reserved(progress);
    }
}
