//! From a trace to the verdict on its run.

ghost use Rattle.std.specs.Prelude.{◌≡◌, All, IfOk, IfErr, IfSome, OnOk};
ghost use Rattle.std.specs.Io.KnownBytes.{Appends, IsAtEnd};
ghost use Rattle.sab_judge.specs.Verdict.{IsReported};
ghost use Rattle.sab_verdict.specs.Json.{access_side, judged_trace};
ghost use Rattle.sab_verdict.specs.ReadsBack.{LinesReadBack};
ghost use Rattle.sab_verdict.specs.Verdict.{trace_verdict_text};
ghost use Rattle.sab_cli.specs.Run.Tracing.{JudgesTrace, IsTraceFailure, refused_at};

use crate::exit::Outcome;
use crate::run::failure::{Explanation, Failure};
use sab_judge::{Trace, Verdict, judge};
use sab_replay::faults::ToolFault;
use sab_replay::report::{MAX_REPORTED, VerdictFormat};
use sab_trace::{LineFault, Refusal, read_trace};
use sab_verdict::write_trace_verdict;
use std::alloc::Global;
use std::io::{Read, Write};

/// Judges a trace that a reader gives for unordered accesses, writes the verdict, and flushes.
///
/// The first races are listed, at most [`MAX_REPORTED`]. A line of the trace that is refused is reported with its
/// fault. ReadFailed if a read failed, OutOfMemory if there is no memory, and WriteFailed if a write or the flush
/// failed; nothing is said then about how much was written. After every other fault nothing was written.
pub fn judge_trace<R: Read, W: Write>(
    alloc: Global,
    format: VerdictFormat,
    input: &mut R,
    output: &mut W,
) -> Result<Outcome, Failure>
    ensures ok { IfOk result (λ outcome. IfSome (R.remaining input.old)
        (JudgesTrace format outcome (W.contents output.old) (W.contents output.new))) }
    ensures end { OnOk result (IsAtEnd (R.remaining input.new)) }
    ensures err { IfErr result
        (IsTraceFailure (R.remaining input.old) (W.contents output.old) (W.contents output.new)) }
{
    let trace = match read_trace(alloc, input) {
        Ok(trace) => trace,
        Err(refusal) => return Err(failure_of(refusal)),
    };
    let Ok(verdict) = judge(alloc, &trace, MAX_REPORTED) else {
        return Err(Failure::from(ToolFault::OutOfMemory));
    };
    report_verdict(&trace, &verdict, format, output)?;
    if verdict.has_no_race() {
        Ok(Outcome::Done)
    } else {
        Ok(Outcome::Racy)
    }
}

/// Writes the verdict on a trace, and flushes.
#[tactic(auto, using(crate::proofs::OfRun::Flushed::appends_kept))]
fn report_verdict<W: Write>(
    trace: &Trace,
    verdict: &Verdict,
    format: VerdictFormat,
    output: &mut W,
) -> Result<(), ToolFault>
    requires { All (IsReported trace.now) verdict.now.races.items }
    ensures ok { OnOk result (Appends (W.contents output.old) (W.contents output.new)
        (trace_verdict_text trace.now format verdict.now.races.items verdict.now.rest verdict.now.data_races)) }
    ensures read_back { LinesReadBack access_side judged_trace trace.now verdict.now.races.items verdict.now.rest
        verdict.now.data_races }
    ensures err { IfErr result (λ fault. fault ≡ ToolFault.WriteFailed) }
{
    write_trace_verdict(trace, verdict, format, output).map_err(ToolFault::of_write)?;
    output.flush().map_err(ToolFault::of_write)
}

/// That of a trace that is refused. For a read that failed, and for want of memory, no line is reported.
fn failure_of(refusal: Refusal) -> Failure
    ensures { result ≡ refused_at refusal }
{
    let fault = match refusal.fault {
        LineFault::ReadFailed => return Failure::from(ToolFault::ReadFailed),
        LineFault::OutOfMemory => return Failure::from(ToolFault::OutOfMemory),
        LineFault::TooMany => ToolFault::TooMany,
        LineFault::TooLong => ToolFault::TooLong,
        LineFault::NotJson => ToolFault::NotJson,
        LineFault::BadShape => ToolFault::BadShape,
        LineFault::BadNumber | LineFault::BadBytes => ToolFault::BadNumber,
        LineFault::BadAgent => ToolFault::BadAgent,
    };
    Failure {
        fault,
        explanation: Explanation::AtLine(refusal.line),
    }
}
