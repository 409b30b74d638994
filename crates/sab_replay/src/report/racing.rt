//! From a script to the report of a race.

ghost use Rattle.std.specs.Prelude.{◌≤◌, IfOk, IfErr};
ghost use Rattle.std.specs.Io.KnownBytes.{Appends};
ghost use Rattle.sab_report_text.specs.Text.Text.{text_by};
ghost use Rattle.sab_plan.specs.Plan.{IsPlan};
ghost use Rattle.sab_report_text.specs.JsonLines.CallData.{AreNames};
ghost use Rattle.sab_report_text.specs.JsonLines.SafeNumbers.{HasSafeNumbers};
ghost use Rattle.sab_replay.specs.ScriptRunner.Racing.{IsRaceOf, IsRaceFault};
ghost use Rattle.sab_replay.specs.Report.Racing.{ReportsRace, IsRaceReportingFault};
ghost use Rattle.sab_replay.specs.Report.Reporting.{RacesAs};

use crate::faults::ToolFault;
use crate::report::moves::report_moves;
use crate::report::names::names_of;
use crate::script_runner::{Ended, MAX_SPINS, Share, race_plan, setup_of};
use sab_report_text::text::{Format, Lines, ReportForm, write_plain};
use sab_report_text::words::Name;
use sab_sim::{Plan, Report};
use std::alloc::Global;
use std::io::Write;
use std::sync::Wait;
use std::thread::Threads;

/// How agents are raced.
#[derive(Clone, Copy, Debug, PartialEq, Eq)]
pub struct RaceOptions {
    /// How they share one simulator.
    pub share: Share,
    /// How often an agent steps at each wait before the wait's time is up.
    pub spins: u32,
    /// The seed that the threads are mixed by; 0 leaves them as they come.
    pub seed: u64,
}

/// Runs the agents of a script in threads, writes the report in its form, and returns how it ended; it doesn't
/// flush.
///
/// The script's schedule is read and checked and then not used: the report's is the order in which the moves took
/// effect. WriteFailed where a write failed; nothing is said then of how much was written. Every other fault is a
/// refusal of the script, agents with more than 2^20 moves in all (TooManyMoves), want of memory, or a thread that
/// couldn't be started (NoThread), and nothing was written.
#[tactic(auto, using(crate::proofs::OfScriptRunner::ReplaySteps::keeps_same))]
pub fn race_as<R: Threads + Wait + Sync, W: Write>(
    rt: &R,
    alloc: Global,
    script: &[u8],
    race: RaceOptions,
    report_form: ReportForm,
    w: &mut W,
) -> Result<Ended, ToolFault>
    requires { race.spins ≤ MAX_SPINS }
    ensures ok { IfOk result (RacesAs report_form (W.contents w.old) (W.contents w.new) script.now race.spins) }
    ensures err { IfErr result (IsRaceFault (W.contents w.old) (W.contents w.new) script.now race.spins) }
{
    let setup = setup_of(alloc, script)?;
    let names = names_of(alloc, &setup)?;
    let (plan, _) = setup.into_parts();
    let report = report_race(rt, alloc, plan, &names, race, report_form, w)?;
    Ok(Ended::of(&report))
}

/// Runs the agents of a plan in threads, and writes the report.
#[tactic(auto, using(crate::proofs::OfReport::Formats::raced_plainly))]
fn report_race<R: Threads + Wait + Sync, W: Write>(
    rt: &R,
    alloc: Global,
    plan: Plan,
    names: &[Name],
    race: RaceOptions,
    report_form: ReportForm,
    w: &mut W,
) -> Result<Report, ToolFault>
    requires spins { race.spins ≤ MAX_SPINS }
    requires plan { IsPlan plan }
    requires numbers { HasSafeNumbers plan }
    requires names { AreNames names.now }
    ensures ok { IfOk result (ReportsRace report_form names.now plan race.spins (W.contents w.old) (W.contents w.new)) }
    ensures err { IfErr result (IsRaceReportingFault plan race.spins (W.contents w.old) (W.contents w.new)) }
{
    match report_form.format {
        Format::Plain => race_plainly(rt, alloc, plan, race, report_form.lines, w),
        Format::Explained | Format::Json | Format::Svg => {
            race_and_replay(rt, alloc, plan, names, race, report_form, w)
        }
    }
}

/// Runs them, and writes the plain text of the report.
#[tactic(auto, using(crate::proofs::OfScriptRunner::ReplaySteps::keeps_same))]
fn race_plainly<R: Threads + Wait + Sync, W: Write>(
    rt: &R,
    alloc: Global,
    plan: Plan,
    race: RaceOptions,
    lines: Lines,
    w: &mut W,
) -> Result<Report, ToolFault>
    requires { race.spins ≤ MAX_SPINS }
    ensures race { IfOk result (IsRaceOf plan race.spins) }
    ensures written { IfOk result (λ report. Appends (W.contents w.old) (W.contents w.new) (text_by lines report)) }
    ensures err { IfErr result (IsRaceReportingFault plan race.spins (W.contents w.old) (W.contents w.new)) }
{
    let report = race_plan(rt, alloc, plan, race.share, race.spins, race.seed)?;
    match write_plain(&report, lines, w) {
        Ok(()) => Ok(report),
        Err(error) => Err(ToolFault::of_write(error)),
    }
}

/// Runs them, and then makes the moves of the race once more, to report what each of them found.
#[tactic(auto, using(crate::proofs::OfScriptRunner::ReplaySteps::keeps_same, crate::proofs::OfReport::Formats::reported_again))]
fn race_and_replay<R: Threads + Wait + Sync, W: Write>(
    rt: &R,
    alloc: Global,
    plan: Plan,
    names: &[Name],
    race: RaceOptions,
    report_form: ReportForm,
    w: &mut W,
) -> Result<Report, ToolFault>
    requires spins { race.spins ≤ MAX_SPINS }
    requires plan { IsPlan plan }
    requires numbers { HasSafeNumbers plan }
    requires names { AreNames names.now }
    ensures ok { IfOk result (ReportsRace report_form names.now plan race.spins (W.contents w.old) (W.contents w.new)) }
    ensures err { IfErr result (IsRaceReportingFault plan race.spins (W.contents w.old) (W.contents w.new)) }
{
    let same_plan = plan.copy(alloc)?;
    let report = race_plan(rt, alloc, plan, race.share, race.spins, race.seed)?;
    report_moves(
        alloc,
        same_plan,
        names,
        report.schedule.as_slice(),
        report_form,
        w,
    )
}
