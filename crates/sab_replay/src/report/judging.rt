//! From a script to the verdict on its run.

ghost use Rattle.std.specs.Prelude.{IfOk, IfErr};
ghost use Rattle.sab_plan.specs.Plan.{IsPlan};
ghost use Rattle.sab_sim.specs.Fits.{Fits};
ghost use Rattle.sab_report_text.specs.JsonLines.CallData.{AreNames};
ghost use Rattle.sab_report_text.specs.JsonLines.SafeNumbers.{HasSafeNumbers};
ghost use Rattle.sab_replay.specs.Report.RunReport.{IsReportingFault};
ghost use Rattle.sab_replay.specs.Report.Judging.{IsJudgeFault, JudgesAs, ReportsVerdict};

use crate::events::trace_of;
use crate::faults::ToolFault;
use crate::report::names::names_of;
use crate::report::ordinary::has_ordinary;
use crate::script_runner::{Ended, replay_moves, setup_of};
use sab_judge::judge;
use sab_report_text::text::VerdictFormat;
use sab_report_text::words::Name;
use sab_sim::{Plan, Report};
use sab_verdict::write_run_verdict;
use std::alloc::Global;
use std::io::Write;

/// How many races of a run are listed at most; the others are counted.
pub const MAX_REPORTED: usize = 100;

// The clauses cite the constant: so its number is held here.
const _: () = prove!(MAX_REPORTED == 100);

/// What a run came to that was judged.
#[derive(Clone, Copy, Debug)]
pub struct Judged {
    /// How the run ended.
    pub ended: Ended,
    /// Whether two of its accesses race.
    pub is_racy: bool,
}

/// Runs a script, judges the run for unordered accesses, writes the verdict, and returns what the run came to; it
/// doesn't flush.
///
/// The first races are listed, at most [`MAX_REPORTED`]. OrdinaryData if a view's name begins with `ordinary_` or
/// `init_`: such a script stands for a run with ordinary accesses, which it has as stores or not at all, so no verdict
/// on it would be one on that run. WriteFailed if a write failed; nothing is said then about how much was written. Any
/// other fault is a refusal of the script, or want of memory. Except after WriteFailed nothing was written.
#[tactic(auto, using(crate::proofs::OfScriptRunner::ReplaySteps::keeps_same, crate::proofs::OfReport::Judgeable::ordinary_found, crate::proofs::OfReport::Judgeable::ordinary_refused, crate::proofs::OfReport::Judgeable::unwritten_verdict))]
pub fn judge_as<W: Write>(
    alloc: Global,
    script: &[u8],
    format: VerdictFormat,
    w: &mut W,
) -> Result<Judged, ToolFault>
    ensures ok { IfOk result (JudgesAs format (W.contents w.old) (W.contents w.new) script.now) }
    ensures err { IfErr result (IsJudgeFault (W.contents w.old) (W.contents w.new) script.now) }
{
    let setup = setup_of(alloc, script)?;
    let names = names_of(alloc, &setup)?;
    if has_ordinary(&names) {
        return Err(ToolFault::OrdinaryData);
    }
    let (plan, schedule) = setup.into_parts();
    let report = replay_moves(alloc, plan.copy(alloc)?, schedule.as_slice())?;
    let is_racy = judge_report(alloc, &plan, &names, &report, format, w)?;
    Ok(Judged {
        ended: Ended::of(&report),
        is_racy,
    })
}

/// Judges the run of a report, writes the verdict, and returns whether the run has a race.
#[tactic(auto, using(crate::proofs::OfScriptRunner::ReplaySteps::keeps_same, crate::proofs::OfEvents::Fitting::few_in_report, crate::proofs::OfEvents::Fitting::agents_in_report))]
fn judge_report<W: Write>(
    alloc: Global,
    plan: &Plan,
    names: &[Name],
    report: &Report,
    format: VerdictFormat,
    w: &mut W,
) -> Result<bool, ToolFault>
    requires plan { IsPlan plan.now }
    requires numbers { HasSafeNumbers plan.now }
    requires fits { Fits plan.now report.now }
    requires names { AreNames names.now }
    ensures ok { IfOk result
        (ReportsVerdict format names.now plan.now report.now (W.contents w.old) (W.contents w.new)) }
    ensures err { IfErr result (IsReportingFault (W.contents w.old) (W.contents w.new)) }
{
    let journal = report.journal.as_slice();
    let trace = trace_of(alloc, plan, journal)?;
    let verdict = judge(alloc, &trace, MAX_REPORTED)?;
    match write_run_verdict(names, plan, journal, &trace, &verdict, format, w) {
        Ok(()) => Ok(!verdict.has_no_race()),
        Err(error) => Err(ToolFault::of_write(error)),
    }
}
