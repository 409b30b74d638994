//! Runs scripts of agents that share blocks of bytes, by their schedule or in threads, judges runs for unordered
//! accesses, and searches all schedules of automata.
#![tactic(auto)]

ghost use Rattle.sab_cli.specs.Command.Job.{IsTaskWithinLimits};

use sab_cli::command::{Request, Source, Task, request_of};
use sab_cli::exit::{Ending, FaultLine, Outcome, without_job, without_words};
use sab_cli::run::{Failure, judge_trace, run, run_race, run_search};
use std::io::{IsTerminal, Read};
use std::process::ExitCode;
use std::random::RandomSource;
use std::rt::Files;
use std::sync::Wait;
use std::thread::Threads;
use std::{fs, io};

/// The words of the command line, of which the first is the program's name.
fn words(rt: &(impl std::rt::Env + AllocGlobal)) -> io::Result<Vec<String>> {
    let words = std::env::args(rt)?.collect(rt.alloc())?;
    Ok(words)
}

/// Does it with what a reader gives, to standard output.
fn perform_on<R: Print + AllocGlobal + Threads + Wait + Sync + RandomSource, I: Read>(
    rt: &R,
    task: Task,
    explain: bool,
    input: &mut I,
) -> Result<Outcome, Failure>
    requires { IsTaskWithinLimits task }
{
    let output = &mut io::writer(rt);
    match task {
        Task::OfScript(job) => run(rt.alloc(), job, explain, input, output),
        Task::OfRace(race) => run_race(rt, race, explain, input, output),
        Task::OfTrace(format) => judge_trace(rt.alloc(), format, input, output),
        Task::OfSearch(job) => run_search(rt.alloc(), job, explain, input, output),
    }
}

/// Does what is asked for, from the input's source to standard output, and says on standard error where it fails.
///
/// On a terminal it also reports why the input is refused.
fn perform<R: Print + Eprint + Input + Files + AllocGlobal + Threads + Wait + Sync + RandomSource>(
    rt: &R,
    request: Request<'_>,
    is_terminal: bool,
) -> Ending
    requires { IsTaskWithinLimits request.task }
{
    let task = request.task;
    let explain = request.explain || is_terminal;
    let answer = match request.source {
        Source::Standard => perform_on(rt, task, explain, &mut rt.reader()),
        Source::File(name) => match fs::open(rt, name) {
            Ok(mut file) => perform_on(rt, task, explain, &mut file),
            Err(error) => Err(Failure::of_open(&error)),
        },
    };
    match answer {
        Ok(outcome) => Ending::of_job(Ok(outcome)),
        Err(failure) => {
            let complaint = failure.complaint(request.source);
            let _ = eprint!(rt; "{complaint}");
            Ending::of_job(Err(failure.fault))
        }
    }
}

/// Says on standard error of a fault that came before any job, and returns how the program ends.
fn reported(rt: &impl Eprint, ending: Ending) -> Ending {
    if let Ending::Failed(fault) = ending {
        let line = FaultLine(fault);
        let _ = eprintln!(rt; "{line}");
    }
    ending
}

/// Does what the words ask for.
fn obey(
    rt: &(impl Print + Eprint + Input + Files + AllocGlobal + Threads + Wait + Sync + RandomSource),
    words: &[String],
    is_terminal: bool,
) -> Ending {
    match request_of(rt.alloc(), words) {
        Ok(request) => perform(rt, request, is_terminal),
        Err(error) => reported(rt, without_job(rt, &error)),
    }
}

fn main(rt: HostRuntime) -> ExitCode {
    let is_terminal = rt.stderr().is_terminal();
    let ending = match words(&rt) {
        Ok(words) => obey(&rt, words.as_slice(), is_terminal),
        Err(error) => reported(&rt, without_words(&rt, &error)),
    };
    ExitCode::from(ending.status())
}
