//! From a race to its report.

ghost use Rattle.std.specs.Prelude.{◌≡◌, ◌≤◌, IfOk, IfErr, IfSome, OnOk};
ghost use Rattle.std.specs.Io.KnownBytes.{IsAtEnd};
ghost use Rattle.sab_cli.specs.Command.Job.{IsWithinLimits};
ghost use Rattle.sab_cli.specs.Run.Explaining.{IsExplanation};
ghost use Rattle.sab_cli.specs.Run.Racing.{RacesIn, RunsRace, RunsRaceGiven, IsFaultOfRace, IsRaceRunFault};
ghost use Rattle.sab_cli.specs.Run.Running.{IsUnwritten};

use crate::command::{RaceJob, RunForm};
use crate::exit::Outcome;
use crate::run::explaining::explanation_of;
use crate::run::failure::Failure;
use crate::run::running::flush;
use sab_replay::faults::ToolFault;
use sab_replay::kept_script::keep_race;
use sab_replay::report::{Ended, RaceOptions, race_as};
use sab_replay::script_runner::{MAX_SPINS, read_input};
use std::io::{Read, Write};
use std::random::RandomSource;
use std::sync::Wait;
use std::thread::Threads;

/// Runs the agents of the script that a reader gives in threads, writes the report, and flushes.
///
/// The faults and the explanation are those of [`run`](crate::run::run), with a race in place of a replay. It waits for
/// threads, so no clause says that it returns.
#[tactic(auto, using(crate::proofs::OfRun::Given::raced, crate::proofs::OfRun::Given::race_failed, crate::proofs::OfRun::Given::explained, crate::proofs::OfRun::Given::unread))]
pub fn run_race<T: Threads + Wait + Sync + AllocGlobal + RandomSource, R: Read, W: Write>(
    rt: &T,
    race: RaceJob,
    explain: bool,
    input: &mut R,
    output: &mut W,
) -> Result<Outcome, Failure>
    requires { IsWithinLimits race }
    ensures ok { IfOk result (λ outcome. IfSome (R.remaining input.old)
        (RunsRaceGiven race outcome (W.contents output.old) (W.contents output.new))) }
    ensures end { OnOk result (IsAtEnd (R.remaining input.new)) }
    ensures err { IfErr result (λ failure. IsRaceRunFault (R.remaining input.old) race
        (W.contents output.old) (W.contents output.new) failure.fault) }
    ensures unwritten { IfErr result (λ failure.
        IsUnwritten (W.contents output.old) (W.contents output.new) failure.fault) }
    ensures why { IfErr result (λ failure. IfSome (R.remaining input.old) (λ script.
        IsExplanation explain failure.fault script failure.explanation)) }
{
    let alloc = rt.alloc();
    let script = read_input(alloc, input)?;
    match race_script(rt, race, script.as_slice(), output) {
        Ok(outcome) => Ok(outcome),
        Err(fault) => {
            let explanation = explanation_of(alloc, explain, fault, script.as_slice());
            Err(Failure { fault, explanation })
        }
    }
}

/// Does it with a script, which isn't too long.
#[tactic(auto, using(crate::proofs::OfRun::Flushed::flushed_race, crate::proofs::OfRun::Flushed::unflushed_race))]
fn race_script<T: Threads + Wait + Sync + AllocGlobal + RandomSource, W: Write>(
    rt: &T,
    race: RaceJob,
    script: &[u8],
    output: &mut W,
) -> Result<Outcome, ToolFault>
    requires { IsWithinLimits race }
    ensures ok { IfOk result (λ outcome.
        RunsRace race outcome (W.contents output.old) (W.contents output.new) script.now) }
    ensures err { IfErr result
        (IsFaultOfRace race.form race.spins (W.contents output.old) (W.contents output.new) script.now) }
    ensures unwritten { IfErr result (IsUnwritten (W.contents output.old) (W.contents output.new)) }
{
    let RaceJob {
        share,
        spins,
        mix,
        form,
        finish,
    } = race;
    let seed = seed_of(rt, mix);
    let ended = race_in(rt, RaceOptions { share, spins, seed }, form, script, output)?;
    flush(output)?;
    Ok(Outcome::of_run(ended, finish))
}

/// The seed that is given, or else one of the system's random numbers: 1 if it has none.
fn seed_of(rt: &impl RandomSource, mix: Option<u64>) -> u64
    ensures { IfSome mix (λ seed. result ≡ seed) }
{
    if let Some(seed) = mix {
        return seed;
    }
    let mut bytes = [0; 8];
    match rt.fill_bytes(&mut bytes) {
        Ok(()) => u64::from_le_bytes(bytes),
        Err(_) => 1,
    }
}

/// Runs the agents of a script in threads, writes the run in its form, and returns how it ended.
fn race_in<T: Threads + Wait + Sync + AllocGlobal, W: Write>(
    rt: &T,
    how: RaceOptions,
    form: RunForm,
    script: &[u8],
    output: &mut W,
) -> Result<Ended, ToolFault>
    requires { how.spins ≤ MAX_SPINS }
    ensures ok { IfOk result (RacesIn form how.spins (W.contents output.old) (W.contents output.new) script.now) }
    ensures err { IfErr result
        (IsFaultOfRace form how.spins (W.contents output.old) (W.contents output.new) script.now) }
    ensures unwritten { IfErr result (IsUnwritten (W.contents output.old) (W.contents output.new)) }
{
    let alloc = rt.alloc();
    match form {
        RunForm::Report(report_form) => race_as(rt, alloc, script, how, report_form, output),
        RunForm::Script => {
            let RaceOptions { share, spins, seed } = how;
            let report = keep_race(rt, alloc, script, share, spins, seed, output)?;
            Ok(Ended::of(&report))
        }
    }
}
