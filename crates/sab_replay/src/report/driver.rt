//! From moves to their report with facts, in any format.

ghost use Rattle.std.specs.Prelude.{◌≡◌, ◌^◌, ◌≤◌, [], length, IfOk, IfErr, OnOk};
ghost use Rattle.std.specs.Io.KnownBytes.{append_known};
ghost use Rattle.sab_plan.specs.Plan.{IsPlan};
ghost use Rattle.sab_replay.specs.Report.Facts.{ReportsEntries, ReportsFacts};
ghost use Rattle.sab_replay.specs.Report.Driver.{AreMovesOf, IsFreshFor};
ghost use Rattle.sab_replay.specs.Report.RunReport.{IsReportingFault};

use crate::explain::Explainer;
use crate::faults::ToolFault;
use crate::report::standings::standings_of;
use sab_report_text::text::Chunk;
use sab_report_text::words::FactFormat;
use sab_sim::{Move, Plan, Report};
use std::alloc::{AllocError, Global};
use std::io;
use std::io::Write;

/// Makes the moves of a schedule, and writes their report with its facts; it doesn't flush.
#[tactic(auto, using(crate::proofs::OfScriptRunner::ReplaySteps::keeps_same))]
pub(crate) fn report_facts<F: FactFormat, W: Write>(
    alloc: Global,
    plan: Plan,
    schedule: &[Move],
    format: &mut F,
    w: &mut W,
) -> Result<Report, ToolFault>
    requires plan { IsPlan plan }
    requires moves { AreMovesOf plan schedule.now }
    ensures ok { IfOk result (ReportsFacts (F.texts format.old) plan schedule.now (W.contents w.old)
        (W.contents w.new)) }
    ensures err { IfErr result (IsReportingFault (W.contents w.old) (W.contents w.new)) }
{
    let explainer = explainer_for(alloc, plan, schedule)?;
    match write_facts(explainer, schedule, format, w) {
        Ok(report) => Ok(report),
        Err(error) => Err(ToolFault::of_write(error)),
    }
}

/// An explainer of the plan's agents, with the room for these moves.
fn explainer_for(alloc: Global, plan: Plan, schedule: &[Move]) -> Result<Explainer, AllocError>
    requires { AreMovesOf plan schedule.now }
    ensures plan { IfOk result (λ explainer. explainer.plan ≡ plan) }
    ensures fresh { IfOk result (λ explainer. IsFreshFor explainer schedule.now) }
{
    let mut explainer = Explainer::new(alloc, plan)?;
    explainer.reserve(schedule.len() as u32)?;
    Ok(explainer)
}

/// Makes all moves of a schedule, for which the room is reserved, and writes their report with its facts.
///
/// It takes no memory, and doesn't flush. Where a write failed nothing is said of how much was written.
fn write_facts<F: FactFormat, W: Write>(
    mut explainer: Explainer,
    schedule: &[Move],
    format: &mut F,
    w: &mut W,
) -> io::Result<Report>
    requires plan { IsPlan explainer.plan }
    requires fresh { IsFreshFor explainer schedule.now }
    ensures { IfOk result
        (ReportsFacts (F.texts format.old) explainer.plan schedule.now (W.contents w.old) (W.contents w.new)) }
{
    let mut chunk = Chunk::new();
    format.write_start(&mut chunk, w)?;
    write_entries(&mut explainer, schedule, format, &mut chunk, w)?;
    let standings = standings_of(&explainer);
    let report = explainer.finish();
    format.write_end(&report, &standings, &mut chunk, w)?;
    Ok(report)
}

/// Makes all moves of a schedule, for which the room is reserved, and writes the text about each; the last may stay in
/// the chunk.
///
/// Where a write failed, nothing is said of how many moves were made or how much was written.
fn write_entries<F: FactFormat, W: Write>(
    explainer: &mut Explainer,
    schedule: &[Move],
    format: &mut F,
    chunk: &mut Chunk,
    w: &mut W,
) -> io::Result<()>
    requires { IsFreshFor explainer.old schedule.now }
    ensures plan { OnOk result (explainer.new.plan ≡ explainer.old.plan) }
    ensures moves { OnOk result (explainer.new.moves ≡ schedule.now) }
    ensures same { OnOk result (F.texts format.new ≡ F.texts format.old) }
    ensures reported { OnOk result (ReportsEntries (F.texts format.old) explainer.old.plan explainer.new.journal
        (append_known (W.contents w.old) chunk.old) (append_known (W.contents w.new) chunk.new)) }
{
    for (k, m) in schedule.iter().enumerate() {
        let sinces = explainer.last_positions();
        let Ok(reported) = explainer.step(*m) else {
            unreachable!();
        };
        let plan = explainer.sim().plan();
        format.write_entry(plan, &sinces, k as u32, &reported, chunk, w)?;
    }
    Ok(())
}
