//! From a file of automata to what a search through all schedules finds.

ghost use Rattle.std.specs.Prelude.{◌≡◌, IfOk, IfErr, IfSome, OnOk};
ghost use Rattle.std.specs.Io.KnownBytes.{IsAtEnd};
ghost use Rattle.sab_automata_reader.specs.AutomataText.Faults.{refusal_number};
ghost use Rattle.sab_cli.specs.Command.Job.{HasRoom};
ghost use Rattle.sab_replay.specs.Faults.ToolFault.{number_of};
ghost use Rattle.sab_cli.specs.Run.Searching.{IsFailureAfter, IsFailureOf, IsFileExplanation, IsSearchFailure};
ghost use Rattle.sab_cli.specs.Run.Searching.{IsFaultBy, RunsSearch, RunsSearchGiven, SearchesBy, outcome_of};

use crate::command::{SearchForm, SearchJob};
use crate::exit::Outcome;
use crate::run::failure::{Explanation, Failure};
use crate::run::running::flush;
use sab_automata_reader::automata_text::{MAX_FILE, Refusal};
use sab_replay::faults::ToolFault;
use sab_replay::script_runner::read_at_most;
use sab_search::{ScriptAsked, SearchAsked, SearchEnd, SearchFault, script_as, search_as};
use std::alloc::Global;
use std::io::{Read, Write};

/// Searches all schedules of the file of automata that a reader gives, writes what it finds or a script, and flushes.
///
/// TooLong if the reader gave more than [`MAX_FILE`] bytes, ReadFailed if a read failed, OutOfMemory if there is no
/// memory, and WriteFailed if a write or the flush failed; nothing is said then about how much was written. TooMany if
/// a script is asked for and no script can have the failure's run. Every other fault, and TooMany too, is that of a
/// file that is refused: then the failure has the place and the reason, if they are asked for. Except after WriteFailed
/// nothing was written, unless memory ran out while each state was written.
#[tactic(auto, using(crate::proofs::OfRun::Searched::searched_given, crate::proofs::OfRun::Searched::unread))]
pub fn run_search<R: Read, W: Write>(
    alloc: Global,
    job: SearchJob,
    explain: bool,
    input: &mut R,
    output: &mut W,
) -> Result<Outcome, Failure>
    requires { HasRoom job }
    ensures ok { IfOk result (λ outcome. IfSome (R.remaining input.old)
        (RunsSearchGiven job outcome (W.contents output.old) (W.contents output.new))) }
    ensures end { OnOk result (IsAtEnd (R.remaining input.new)) }
    ensures err { IfErr result
        (IsSearchFailure (R.remaining input.old) job explain (W.contents output.old) (W.contents output.new)) }
{
    let file = read_at_most(alloc, MAX_FILE, input)?;
    search_file(alloc, job, explain, file.as_slice(), output)
}

/// Does it with a file, which isn't too long.
#[tactic(auto, using(crate::proofs::OfRun::Searched::flushed))]
fn search_file<W: Write>(
    alloc: Global,
    job: SearchJob,
    explain: bool,
    file: &[u8],
    output: &mut W,
) -> Result<Outcome, Failure>
    requires { HasRoom job }
    ensures ok { IfOk result (λ outcome.
        RunsSearch job outcome (W.contents output.old) (W.contents output.new) file.now) }
    ensures err { IfErr result
        (IsFailureAfter job explain (W.contents output.old) (W.contents output.new) file.now) }
{
    match search_by(alloc, job, file, output) {
        Ok(end) => {
            flush(output)?;
            Ok(outcome_of(end))
        }
        Err(fault) => Err(failure_of(alloc, explain, fault)),
    }
}

/// Searches, and writes what is found, or a script.
fn search_by<W: Write>(
    alloc: Global,
    job: SearchJob,
    file: &[u8],
    output: &mut W,
) -> Result<SearchEnd, SearchFault>
    requires { HasRoom job }
    ensures ok { IfOk result (SearchesBy job.form job (W.contents output.old) (W.contents output.new) file.now) }
    ensures err { IfErr result (IsFaultBy job.form job (W.contents output.old) (W.contents output.new) file.now) }
{
    let timeouts = job.timeouts;
    let limit = job.limit;
    match job.form {
        SearchForm::Findings { format, states } => {
            let asked = SearchAsked {
                timeouts,
                limit,
                format,
                states,
            };
            search_as(alloc, file, asked, output)
        }
        SearchForm::Script { failure } => {
            let asked = ScriptAsked {
                timeouts,
                limit,
                failure,
            };
            script_as(alloc, file, asked, output)
        }
    }
}

/// What a search came to that ended so.
fn outcome_of(end: SearchEnd) -> Outcome
    ensures { result ≡ outcome_of end }
{
    match end {
        SearchEnd::Clean => Outcome::Done,
        SearchEnd::Found => Outcome::Flawed,
        SearchEnd::Open => Outcome::Open,
    }
}

/// What is reported about a search that failed so; the refusal of a file is explained if that is asked for.
fn failure_of(alloc: Global, explain: bool, fault: SearchFault) -> Failure
    ensures { IsFailureOf explain fault result }
{
    match fault {
        SearchFault::Refused(refusal) => Failure {
            fault: fault_of(refusal),
            explanation: file_explanation(alloc, explain, refusal),
        },
        SearchFault::NoScript => Failure::from(ToolFault::TooMany),
        SearchFault::OutOfMemory => Failure::from(ToolFault::OutOfMemory),
        SearchFault::WriteFailed => Failure::from(ToolFault::WriteFailed),
    }
}

/// The fault of a file that is refused so.
#[tactic(auto, using(crate::proofs::OfRun::Searched::has_a_fault))]
fn fault_of(refusal: Refusal) -> ToolFault
    ensures { number_of result ≡ refusal_number refusal }
{
    match ToolFault::of_number(refusal.number()) {
        Some(fault) => fault,
        None => unreachable!(),
    }
}

/// The place and the reason of a refusal, if they are asked for.
fn file_explanation(alloc: Global, is_asked: bool, refusal: Refusal) -> Explanation
    ensures { IsFileExplanation is_asked refusal result }
{
    if !is_asked {
        return Explanation::Absent;
    }
    match format!(in alloc; "{refusal}\n") {
        Ok(text) => Explanation::CheckText(text),
        Err(_) => Explanation::NoMemory,
    }
}
