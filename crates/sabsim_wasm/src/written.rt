//! What the program writes.

ghost use Rattle.std.specs.Prelude.{[], ◌≡◌, ◌≢◌, IfOk, IfSome, MatchResult, OnOk};
ghost use Rattle.sab_replay.specs.declared.faults.tool_fault.ToolFault.TheVariants.{ReadFailed};
ghost use Rattle.sab_cli.specs.Run.Failure.{unexplained};
ghost use Rattle.sab_cli.specs.declared.command.request.Task.TheVariants.{OfSearch};
ghost use Rattle.sab_cli.specs.Command.Job.{HasRoom, IsTaskWithinLimits};
ghost use Rattle.sabsim_wasm.specs.Exports.{PutsSuch, PutsTask, RepliesToSearch, RepliesToTask};
ghost use Rattle.sabsim_wasm.specs.Program.{EndsOfRace, EndsOfScript, EndsOfTrace, Fails, IsOfBytes, done, no_memory};
ghost use Rattle.sabsim_wasm.specs.Program.{written_by, written_of};
ghost use Rattle.sabsim_wasm.specs.Room.{Puts};

use crate::reply::{Reply, put, put_lines, put_no_memory};
use sab_cli::command::{Job, SearchJob, Source, Task};
use sab_cli::exit::{Complaint, Ending, Outcome};
use sab_cli::run::{Explanation, Failure, judge_trace, run, run_search};
use sab_replay::faults::ToolFault;
use sab_report_text::text::VerdictFormat;
use std::alloc::{AllocError, Global};

/// What the program writes to the standard streams, and its exit status.
#[derive(Drop)]
pub(crate) struct Written {
    /// The exit status.
    pub status: u8,
    /// What goes to standard output.
    pub output: Vec<u8>,
    /// What goes to standard error.
    pub complaint: String,
}

/// What can be done instead of a race, as a line.
static NO_RACE: &str =
    "races in threads need the native program sabsim: this one is made for WebAssembly\n";

/// Does what is asked for with the input's bytes, if something is, and puts what the program writes into the room.
pub(crate) fn reply_to_task(
    alloc: Global,
    task: Option<Task>,
    explain: bool,
    input: &[u8],
    room: &mut [u8],
) -> Reply
    requires { IfSome task IsTaskWithinLimits }
    ensures { RepliesToTask task explain input.now room.old room.new result }
{
    match task {
        Some(task) => put_task(alloc, task, Source::Standard, explain, input, room),
        None => put_nothing(room),
    }
}

/// Searches the input as is asked for, if something is, and puts the lines that the program writes and that fit into
/// the room.
pub(crate) fn reply_to_search(
    alloc: Global,
    job: Option<SearchJob>,
    explain: bool,
    input: &[u8],
    room: &mut [u8],
) -> Reply
    requires { IfSome job HasRoom }
    ensures { RepliesToSearch job explain input.now room.old room.new result }
{
    match job {
        Some(job) => put_search(alloc, job, Source::Standard, explain, input, room),
        None => put_nothing(room),
    }
}

/// Puts nothing, with the status of a command line that is refused.
fn put_nothing(room: &mut [u8]) -> Reply
    ensures { Puts 0 (written_of 2 [] []) room.old room.new result }
{
    put(Ending::Refused.status(), &[], "", room)
}

/// Does what is asked for, and puts what the program writes into the room. The source is named if it failed.
pub(crate) fn put_task(
    alloc: Global,
    task: Task,
    source: Source<'_>,
    explain: bool,
    input: &[u8],
    room: &mut [u8],
) -> Reply
    requires { IsTaskWithinLimits task }
    ensures { PutsTask task source.entry explain input.now room.old room.new result }
{
    match task {
        Task::OfScript(job) => put_made(perform_job(alloc, job, source, explain, input), room),
        Task::OfTrace(format) => put_made(judge(alloc, format, source, input), room),
        Task::OfRace(_) => put_made(refuse_race(alloc), room),
        Task::OfSearch(job) => put_search(alloc, job, source, explain, input, room),
    }
}

/// Searches the input, and puts the lines that the program writes and that fit into the room. So it is never searched
/// again for a larger one.
fn put_search(
    alloc: Global,
    job: SearchJob,
    source: Source<'_>,
    explain: bool,
    file: &[u8],
    room: &mut [u8],
) -> Reply
    requires { HasRoom job }
    ensures { PutsTask (OfSearch job) source.entry explain file.now room.old room.new result }
{
    let mut output = Vec::new(alloc);
    let mut reader = file;
    match run_search(alloc, job, explain, &mut reader, &mut output) {
        Ok(outcome) => {
            let status = Ending::of_job(Ok(outcome)).status();
            put_lines(status, output.as_slice(), room)
        }
        Err(failure) => put_made(failed(alloc, &failure, source), room),
    }
}

/// Puts what the program writes into the room, if there was memory for it.
fn put_made(made: Result<Written, AllocError>, room: &mut [u8]) -> Reply
    ensures { MatchResult made (λ written. Puts 0 (written_by written) room.old room.new result)
        (λ error. Puts 0 no_memory room.old room.new result) }
{
    match made {
        Ok(written) => put_written(&written, room),
        Err(_) => put_no_memory(room),
    }
}

/// Says that the source can't be read.
pub(crate) fn put_unreadable(alloc: Global, source: Source<'_>, room: &mut [u8]) -> Reply
    ensures { PutsSuch (Fails (unexplained ReadFailed) source.entry) room.old room.new result }
{
    let failure = Failure {
        fault: ToolFault::ReadFailed,
        explanation: Explanation::Absent,
    };
    match complained(alloc, &failure, source) {
        Ok(written) => put_written(&written, room),
        Err(_) => put_no_memory(room),
    }
}

/// Puts what the program writes into the room.
fn put_written(written: &Written, room: &mut [u8]) -> Reply
    ensures { Puts 0 (written_by written.now) room.old room.new result }
{
    put(
        written.status,
        written.output.as_slice(),
        written.complaint.as_str(),
        room,
    )
}

/// Does a job of a script.
#[tactic(auto, using(crate::proofs::Ends::script_done))]
fn perform_job(
    alloc: Global,
    job: Job,
    source: Source<'_>,
    explain: bool,
    script: &[u8],
) -> Result<Written, AllocError>
    ensures { IfOk result (λ written. EndsOfScript job source.entry explain script.now (written_by written)) }
{
    let mut output = Vec::new(alloc);
    let mut reader = script;
    match run(alloc, job, explain, &mut reader, &mut output) {
        Ok(outcome) => Ok(done(alloc, outcome, output)),
        Err(failure) => failed(alloc, &failure, source),
    }
}

/// Judges a trace.
#[tactic(auto, using(crate::proofs::Ends::trace_done, crate::proofs::Ends::trace_refused))]
fn judge(
    alloc: Global,
    format: VerdictFormat,
    source: Source<'_>,
    trace: &[u8],
) -> Result<Written, AllocError>
    ensures { IfOk result (λ written. EndsOfTrace format source.entry trace.now (written_by written)) }
{
    let mut output = Vec::new(alloc);
    let mut reader = trace;
    match judge_trace(alloc, format, &mut reader, &mut output) {
        Ok(outcome) => Ok(done(alloc, outcome, output)),
        Err(failure) => failed(alloc, &failure, source),
    }
}

/// Says that there can be no race.
fn refuse_race(alloc: Global) -> Result<Written, AllocError>
    ensures { IfOk result (λ written. EndsOfRace (written_by written)) }
{
    let complaint = Complaint {
        fault: ToolFault::NoThread,
        file: None,
        line: None,
        why: NO_RACE,
    };
    Ok(Written {
        status: Ending::Failed(ToolFault::NoThread).status(),
        output: Vec::new(alloc),
        complaint: format!(in alloc; "{complaint}")?,
    })
}

/// What is written of what was done.
fn done(alloc: Global, outcome: Outcome, output: Vec<u8>) -> Written
    ensures { written_by result ≡ done outcome output.items }
{
    Written {
        status: Ending::of_job(Ok(outcome)).status(),
        output,
        complaint: String::new(alloc),
    }
}

/// What is written of a failure of a job. A read or a write that failed is want of memory, since the input and the
/// output are lists of bytes.
fn failed(alloc: Global, failure: &Failure, source: Source<'_>) -> Result<Written, AllocError>
    ensures ok { IfOk result (λ written. Fails failure.now source.entry (written_by written)) }
    ensures fault { OnOk result (IsOfBytes failure.now.fault) }
{
    if failure.fault == ToolFault::ReadFailed || failure.fault == ToolFault::WriteFailed {
        return Err(AllocError);
    }
    complained(alloc, failure, source)
}

/// What is written of a failure.
#[tactic(auto, using(crate::proofs::Ends::fails_by))]
fn complained(alloc: Global, failure: &Failure, source: Source<'_>) -> Result<Written, AllocError>
    ensures { IfOk result (λ written. Fails failure.now source.entry (written_by written)) }
{
    let complaint = failure.complaint(source);
    Ok(Written {
        status: Ending::Failed(failure.fault).status(),
        output: Vec::new(alloc),
        complaint: format!(in alloc; "{complaint}")?,
    })
}
