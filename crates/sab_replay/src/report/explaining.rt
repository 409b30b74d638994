//! The formats that report facts.

ghost use Rattle.std.specs.Prelude.{IfOk, IfErr};
ghost use Rattle.sab_plan.specs.Plan.{IsPlan};
ghost use Rattle.sab_report_text.specs.Words.Column.{column_of};
ghost use Rattle.sab_replay.specs.Report.Formats.{Explains};
ghost use Rattle.sab_report_text.specs.JsonLines.CallData.{AreNames};
ghost use Rattle.sab_replay.specs.Report.Formats.{ExplainsAsJson};
ghost use Rattle.sab_replay.specs.Report.Formats.{Draws};
ghost use Rattle.sab_replay.specs.Report.Driver.{AreMovesOf};
ghost use Rattle.sab_replay.specs.Report.RunReport.{IsColumnOf, IsReportingFault};

use crate::faults::ToolFault;
use crate::report::driver::report_facts;
use crate::script_runner::replay_moves;
use sab_report_text::json_lines::Json;
use sab_report_text::text::Lines;
use sab_report_text::words::{Column, Layout, Name, Words};
use sab_sim::{Move, Plan, Report};
use sab_svg::Picture;
use std::alloc::{AllocError, Global};
use std::io::Write;

/// Makes the moves of a schedule, and writes the explained text of their report.
#[tactic(auto, using(crate::proofs::OfScriptRunner::ReplaySteps::keeps_same))]
pub(crate) fn explain<W: Write>(
    alloc: Global,
    plan: Plan,
    names: &[Name],
    schedule: &[Move],
    lines: Lines,
    w: &mut W,
) -> Result<Report, ToolFault>
    requires plan { IsPlan plan }
    requires moves { AreMovesOf plan schedule.now }
    ensures ok { IfOk result (λ report. Explains (column_of report) names.now plan lines schedule.now
        (W.contents w.old) (W.contents w.new) report) }
    ensures err { IfErr result (IsReportingFault (W.contents w.old) (W.contents w.new)) }
{
    let column = measure(alloc, &plan, schedule)?;
    let layout = Layout { lines, column };
    report_facts(alloc, plan, schedule, &mut Words { names, layout }, w)
}

/// The column at which the words of the moves' report begin. The moves are made for it once, before the first line is
/// written.
fn measure(alloc: Global, plan: &Plan, schedule: &[Move]) -> Result<Column, AllocError>
    requires { AreMovesOf plan.now schedule.now }
    ensures { IfOk result (λ column. IsColumnOf plan.now schedule.now column.at) }
{
    let report = replay_moves(alloc, plan.copy(alloc)?, schedule)?;
    Ok(Column::of(&report))
}

/// Makes the moves of a schedule, and writes their report as JSON.
pub(crate) fn explain_as_json<W: Write>(
    alloc: Global,
    plan: Plan,
    names: &[Name],
    schedule: &[Move],
    lines: Lines,
    w: &mut W,
) -> Result<Report, ToolFault>
    requires names { AreNames names.now }
    requires plan { IsPlan plan }
    requires moves { AreMovesOf plan schedule.now }
    ensures ok { IfOk result (ExplainsAsJson names.now lines plan schedule.now (W.contents w.old) (W.contents w.new)) }
    ensures err { IfErr result (IsReportingFault (W.contents w.old) (W.contents w.new)) }
{
    report_facts(alloc, plan, schedule, &mut Json { names, lines }, w)
}

/// Makes the moves of a schedule, and writes the picture of their report.
pub(crate) fn draw<W: Write>(
    alloc: Global,
    plan: Plan,
    names: &[Name],
    schedule: &[Move],
    w: &mut W,
) -> Result<Report, ToolFault>
    requires plan { IsPlan plan }
    requires moves { AreMovesOf plan schedule.now }
    ensures ok { IfOk result (Draws names.now plan schedule.now (W.contents w.old) (W.contents w.new)) }
    ensures err { IfErr result (IsReportingFault (W.contents w.old) (W.contents w.new)) }
{
    let mut picture = Picture::new(names, &plan, schedule.len() as u32);
    report_facts(alloc, plan, schedule, &mut picture, w)
}
