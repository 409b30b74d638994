//! Replays that are kept.

ghost use Rattle.std.specs.Prelude.{IfOk, IfErr};
ghost use Rattle.sab_replay.specs.ScriptRunner.Replay.{IsReportOf};
ghost use Rattle.sab_replay.specs.KeptScript.Keeping.{IsKept, KeepsRun, IsReplayUnkept, IsKeepFault};

use crate::faults::ToolFault;
use crate::kept_script::parsing::parse_script;
use crate::kept_script::rescheduled::rescheduled_text;
use crate::script_runner::replay_moves;
use sab_sim::Report;
use std::alloc::Global;
use std::io::Write;

/// Runs a script, and writes it in its canonical text; it doesn't flush. The answer is the report,
/// whose text isn't written.
///
/// The canonical text has no space between its parts, the members of each object in the order of
/// their names, and a line feed at its end. TooMany also where it has more than 1,048,576 bytes.
/// WriteFailed where a write failed; nothing is said then of how much was written. Every other fault
/// is a refusal of the script, or want of memory, and nothing was written.
pub fn keep_replay<W: Write>(alloc: Global, script: &[u8], w: &mut W) -> Result<Report, ToolFault>
    ensures ok { IfOk result
        (KeepsRun IsReportOf (W.contents w.old) (W.contents w.new) script.now) }
    ensures err { IfErr result
        (IsKeepFault IsReplayUnkept (W.contents w.old) (W.contents w.new) script.now) }
{
    let (text, report) = replay_text(alloc, script)?;
    w.write_all(&text).map_err(ToolFault::of_write)?;
    Ok(report)
}

/// Runs a script: the text that keeps the replay, and its report.
fn replay_text(alloc: Global, script: &[u8]) -> Result<(Vec<u8>, Report), ToolFault>
    ensures kept { IfOk result (λ p. IsKept IsReportOf script.now p.1 p.0.items) }
    ensures err { IfErr result (IsReplayUnkept script.now) }
{
    let (tree, setup) = parse_script(alloc, script)?;
    let (plan, schedule) = setup.into_parts();
    let report = replay_moves(alloc, plan, &schedule)?;
    let text = rescheduled_text(alloc, tree, &report.schedule)?;
    Ok((text, report))
}
