//! From a script to the text of its report.

ghost use Rattle.std.specs.Prelude.{◌^◌, ◌<◌, ◌≤◌, length, All, IfOk, OnOk, IfErr};
ghost use Rattle.sab_plan.specs.Schedule.{agent_of};
ghost use Rattle.sab_replay.specs.ScriptRunner.Replay.{IsReplayOf, Replays, IsReplayFault};
ghost use Rattle.sab_sim.specs.declared.sim.TheConstants.Sim.{MAX_ENTRIES};

use crate::faults::ToolFault;
use crate::script_runner::report::write_report;
use crate::script_runner::script::setup_of;
use sab_sim::{Move, Plan, Report, SimFault, replay};
use std::alloc::{AllocError, Global};
use std::io::Write;

/// Runs a script, and writes the text of its report; it doesn't flush.
///
/// WriteFailed where a write failed; nothing is said then of how much was written. Every other fault is a refusal of
/// the script, or want of memory, and nothing was written.
#[tactic(auto, using(crate::proofs::OfScriptRunner::ReplaySteps::keeps_same))]
pub fn replay_bytes<W: Write>(alloc: Global, script: &[u8], w: &mut W) -> Result<(), ToolFault>
    ensures ok { OnOk result (Replays (W.contents w.old) (W.contents w.new) script.now) }
    ensures err { IfErr result (IsReplayFault (W.contents w.old) (W.contents w.new) script.now) }
{
    let setup = setup_of(alloc, script)?;
    let (plan, schedule) = setup.into_parts();
    let report = replay_moves(alloc, plan, schedule.as_slice())?;
    write_report(&report, w)
}

/// Makes the moves of a schedule, at most 2^20 and each of an agent of the plan, and returns their report.
pub fn replay_moves(alloc: Global, plan: Plan, schedule: &[Move]) -> Result<Report, AllocError>
    requires few { length schedule.now ≤ MAX_ENTRIES }
    requires named { All (λ m. agent_of m < length plan.scripts) schedule.now }
    ensures { IfOk result (IsReplayOf plan schedule.now) }
{
    match replay(alloc, plan, schedule) {
        Ok(report) => Ok(report),
        Err(fault) => match fault {
            SimFault::OutOfMemory => Err(AllocError),
            SimFault::NoAgent | SimFault::Full => unreachable!(),
        },
    }
}
