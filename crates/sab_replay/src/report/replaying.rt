//! From a script to its report.

ghost use Rattle.std.specs.Prelude.{IfOk, IfErr};
ghost use Rattle.sab_replay.specs.ScriptRunner.Replay.{IsReplayFault};
ghost use Rattle.sab_replay.specs.Report.Reporting.{ReplaysAs};

use crate::faults::ToolFault;
use crate::report::moves::report_moves;
use crate::report::names::names_of;
use crate::script_runner::{Ended, setup_of};
use sab_report_text::text::ReportForm;
use std::alloc::Global;
use std::io::Write;

/// Runs a script, writes its report in its form, and returns how it ended; it doesn't flush.
///
/// WriteFailed where a write failed; nothing is said then of how much was written. Every other fault is a refusal of
/// the script, or want of memory, and nothing was written.
#[tactic(auto, using(crate::proofs::OfScriptRunner::ReplaySteps::keeps_same))]
pub fn replay_as<W: Write>(
    alloc: Global,
    script: &[u8],
    report_form: ReportForm,
    w: &mut W,
) -> Result<Ended, ToolFault>
    ensures ok { IfOk result (ReplaysAs report_form (W.contents w.old) (W.contents w.new) script.now) }
    ensures err { IfErr result (IsReplayFault (W.contents w.old) (W.contents w.new) script.now) }
{
    let setup = setup_of(alloc, script)?;
    let names = names_of(alloc, &setup)?;
    let (plan, schedule) = setup.into_parts();
    let report = report_moves(alloc, plan, &names, schedule.as_slice(), report_form, w)?;
    Ok(Ended::of(&report))
}
