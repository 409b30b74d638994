//! From a job to its report, without a thread.

ghost use Rattle.std.specs.Prelude.{◌≡◌, IfOk, IfErr, IfSome, OnOk};
ghost use Rattle.std.specs.Io.KnownBytes.{Appends, IsAtEnd, Keeps};
ghost use Rattle.sab_cli.specs.Run.Explaining.{IsExplanation};
ghost use Rattle.sab_cli.specs.Run.Running.{ReplaysIn, Runs, RunsGiven, IsFaultOfReplay, IsFaultOf, IsRunFault};
ghost use Rattle.sab_cli.specs.Run.Running.{IsUnwritten};

use crate::command::{Job, RunForm};
use crate::exit::Outcome;
use crate::run::explaining::explanation_of;
use crate::run::failure::Failure;
use sab_reader::check::{Checked, check_script};
use sab_replay::faults::ToolFault;
use sab_replay::kept_script::keep_replay;
use sab_replay::report::{Ended, VerdictFormat, judge_as, replay_as};
use sab_replay::script_runner::read_input;
use std::alloc::Global;
use std::io::{Read, Write};

/// Does a job with the script that a reader gives, without a thread: writes its report, or what a check says about it,
/// and flushes.
///
/// It needs only memory, the reader and the writer, so it returns if these two do. TooLong if the reader gave more than
/// [`MAX_INPUT`](sab_replay::script_runner::MAX_INPUT) bytes, ReadFailed if a read failed, and WriteFailed if a write
/// or the flush failed; nothing is said then about how much was written. Every other fault is that of the script's
/// replay, or want of memory, and nothing was written. A check of a script that is refused doesn't return its fault:
/// what is written reports it. If the script is refused, and that is to be explained, the failure has what a check says
/// about it.
#[tactic(auto, using(crate::proofs::OfRun::Given::ran, crate::proofs::OfRun::Given::failed, crate::proofs::OfRun::Given::explained, crate::proofs::OfRun::Given::unread))]
pub fn run<R: Read, W: Write>(
    alloc: Global,
    job: Job,
    explain: bool,
    input: &mut R,
    output: &mut W,
) -> Result<Outcome, Failure>
    ensures ok { IfOk result (λ outcome. IfSome (R.remaining input.old)
        (RunsGiven job outcome (W.contents output.old) (W.contents output.new))) }
    ensures end { OnOk result (IsAtEnd (R.remaining input.new)) }
    ensures err { IfErr result (λ failure. IsRunFault (R.remaining input.old) job
        (W.contents output.old) (W.contents output.new) failure.fault) }
    ensures unwritten { IfErr result (λ failure.
        IsUnwritten (W.contents output.old) (W.contents output.new) failure.fault) }
    ensures why { IfErr result (λ failure. IfSome (R.remaining input.old) (λ script.
        IsExplanation explain failure.fault script failure.explanation)) }
{
    let script = read_input(alloc, input)?;
    match run_script(alloc, job, script.as_slice(), output) {
        Ok(outcome) => Ok(outcome),
        Err(fault) => {
            let explanation = explanation_of(alloc, explain, fault, script.as_slice());
            Err(Failure { fault, explanation })
        }
    }
}

/// Does it with a script, which isn't too long.
#[tactic(auto, using(crate::proofs::OfRun::Flushed::flushed_replay, crate::proofs::OfRun::Flushed::unflushed_replay))]
fn run_script<W: Write>(
    alloc: Global,
    job: Job,
    script: &[u8],
    output: &mut W,
) -> Result<Outcome, ToolFault>
    ensures ok { IfOk result (λ outcome. Runs job outcome (W.contents output.old) (W.contents output.new) script.now) }
    ensures err { IfErr result (IsFaultOf job (W.contents output.old) (W.contents output.new) script.now) }
    ensures unwritten { IfErr result (IsUnwritten (W.contents output.old) (W.contents output.new)) }
{
    match job {
        Job::Check => check(alloc, script, output),
        Job::Judge { format, finish } => judge(alloc, format, finish, script, output),
        Job::Replay { form, finish } => {
            let ended = replay(alloc, form, script, output)?;
            flush(output)?;
            Ok(Outcome::of_run(ended, finish))
        }
    }
}

/// Writes what a writer still holds back.
pub(crate) fn flush<W: Write>(output: &mut W) -> Result<(), ToolFault>
    ensures ok { OnOk result (Keeps (W.contents output.old) (W.contents output.new)) }
    ensures err { IfErr result (λ fault. fault ≡ ToolFault.WriteFailed) }
{
    output.flush().map_err(ToolFault::of_write)
}

/// Replays a script, writes the run in its form, and returns how it ended.
fn replay<W: Write>(
    alloc: Global,
    form: RunForm,
    script: &[u8],
    output: &mut W,
) -> Result<Ended, ToolFault>
    ensures ok { IfOk result (ReplaysIn form (W.contents output.old) (W.contents output.new) script.now) }
    ensures err { IfErr result (IsFaultOfReplay form (W.contents output.old) (W.contents output.new) script.now) }
    ensures unwritten { IfErr result (IsUnwritten (W.contents output.old) (W.contents output.new)) }
{
    match form {
        RunForm::Report(report_form) => replay_as(alloc, script, report_form, output),
        RunForm::Script => {
            let report = keep_replay(alloc, script, output)?;
            Ok(Ended::of(&report))
        }
    }
}

/// Replays it, and judges the run for unordered accesses.
#[tactic(auto, using(crate::proofs::OfRun::Flushed::flushed_verdict, crate::proofs::OfRun::Flushed::unflushed_verdict))]
fn judge<W: Write>(
    alloc: Global,
    format: VerdictFormat,
    finish: bool,
    script: &[u8],
    output: &mut W,
) -> Result<Outcome, ToolFault>
    ensures ok { IfOk result (λ outcome. Runs (Job.Judge format finish) outcome
        (W.contents output.old) (W.contents output.new) script.now) }
    ensures err { IfErr result (IsFaultOf (Job.Judge format finish)
        (W.contents output.old) (W.contents output.new) script.now) }
    ensures unwritten { IfErr result (IsUnwritten (W.contents output.old) (W.contents output.new)) }
{
    let judged = judge_as(alloc, script, format, output)?;
    flush(output)?;
    Ok(Outcome::of_judged(judged.is_racy, judged.ended, finish))
}

/// Checks a script.
#[tactic(auto)]
fn check<W: Write>(alloc: Global, script: &[u8], output: &mut W) -> Result<Outcome, ToolFault>
    ensures ok { IfOk result (λ outcome. Runs Job.Check outcome
        (W.contents output.old) (W.contents output.new) script.now) }
    ensures err { IfErr result (IsFaultOf Job.Check
        (W.contents output.old) (W.contents output.new) script.now) }
    ensures unwritten { IfErr result (IsUnwritten (W.contents output.old) (W.contents output.new)) }
{
    match check_script(alloc, script)? {
        Checked::Accepted(text) => {
            write_and_flush(text.as_str(), output)?;
            Ok(Outcome::Done)
        }
        Checked::Refused(text) => {
            write_and_flush(text.as_str(), output)?;
            Ok(Outcome::Refused)
        }
    }
}

/// Writes a text, and flushes.
#[tactic(auto, using(crate::proofs::OfRun::Flushed::appends_kept))]
fn write_and_flush<W: Write>(text: &str, output: &mut W) -> Result<(), ToolFault>
    ensures ok { OnOk result (Appends (W.contents output.old) (W.contents output.new) text.now) }
    ensures err { IfErr result (λ fault. fault ≡ ToolFault.WriteFailed) }
{
    output
        .write_all(text.as_bytes())
        .map_err(ToolFault::of_write)?;
    flush(output)
}
