//! From moves to their report.

ghost use Rattle.std.specs.Prelude.{IfOk, IfErr};
ghost use Rattle.std.specs.Io.KnownBytes.{Appends};
ghost use Rattle.sab_report_text.specs.Text.Text.{text_by};
ghost use Rattle.sab_plan.specs.Plan.{IsPlan};
ghost use Rattle.sab_report_text.specs.JsonLines.CallData.{AreNames};
ghost use Rattle.sab_report_text.specs.JsonLines.SafeNumbers.{HasSafeNumbers};
ghost use Rattle.sab_replay.specs.ScriptRunner.Replay.{IsReplayOf};
ghost use Rattle.sab_replay.specs.Report.Driver.{AreMovesOf};
ghost use Rattle.sab_replay.specs.Report.RunReport.{ReportsMoves, IsReportingFault};

use crate::faults::ToolFault;
use crate::report::explaining::{draw, explain, explain_as_json};
use crate::script_runner::replay_moves;
use sab_report_text::text::{Format, Lines, ReportForm, write_plain};
use sab_report_text::words::Name;
use sab_sim::{Move, Plan, Report};
use std::alloc::Global;
use std::io::Write;

/// Makes the moves of a schedule, and writes their report; it doesn't flush.
#[tactic(auto, using(crate::proofs::OfReport::Formats::reported_plainly, crate::proofs::OfReport::Formats::reported_explained, crate::proofs::OfReport::Formats::reported_as_json, crate::proofs::OfReport::Formats::reported_as_picture))]
pub(crate) fn report_moves<W: Write>(
    alloc: Global,
    plan: Plan,
    names: &[Name],
    schedule: &[Move],
    report_form: ReportForm,
    w: &mut W,
) -> Result<Report, ToolFault>
    requires plan { IsPlan plan }
    requires numbers { HasSafeNumbers plan }
    requires names { AreNames names.now }
    requires moves { AreMovesOf plan schedule.now }
    ensures ok { IfOk result (ReportsMoves report_form names.now plan schedule.now (W.contents w.old)
        (W.contents w.new)) }
    ensures err { IfErr result (IsReportingFault (W.contents w.old) (W.contents w.new)) }
{
    let lines = report_form.lines;
    match report_form.format {
        Format::Plain => report_plainly(alloc, plan, schedule, lines, w),
        Format::Explained => explain(alloc, plan, names, schedule, lines, w),
        Format::Json => explain_as_json(alloc, plan, names, schedule, lines, w),
        Format::Svg => draw(alloc, plan, names, schedule, w),
    }
}

/// Makes them, and writes the plain text of their report.
#[tactic(auto, using(crate::proofs::OfScriptRunner::ReplaySteps::keeps_same))]
fn report_plainly<W: Write>(
    alloc: Global,
    plan: Plan,
    schedule: &[Move],
    lines: Lines,
    w: &mut W,
) -> Result<Report, ToolFault>
    requires moves { AreMovesOf plan schedule.now }
    ensures replay { IfOk result (IsReplayOf plan schedule.now) }
    ensures written { IfOk result (λ report. Appends (W.contents w.old) (W.contents w.new) (text_by lines report)) }
    ensures err { IfErr result (IsReportingFault (W.contents w.old) (W.contents w.new)) }
{
    let report = replay_moves(alloc, plan, schedule)?;
    match write_plain(&report, lines, w) {
        Ok(()) => Ok(report),
        Err(error) => Err(ToolFault::of_write(error)),
    }
}
