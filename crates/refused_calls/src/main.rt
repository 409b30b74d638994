//! Makes calls, to which something outside refuses memory or threads (`tests/refusals`).
//!
//! Its argument is the name of a call; without one it makes all. A line reports that the call returned its answer, or
//! that it was refused as it may be, that all stayed which has to stay, and that the same call once more returned its
//! answer. It ends with status 1 if it finds something wrong.
#![tactic(auto)]

mod case;
mod found;
mod gate;
mod plans;
mod races;
mod reports;
mod scripts;
mod simulators;
mod texts;

use case::{Call, Case, cases};
use found::{Found, Unmade};
use std::alloc::Global;
use std::process::ExitCode;
use std::rt::Env;
use std::sync::Wait;
use std::thread::Threads;
use std::{env, io};

/// Makes a call once.
fn make<R: Threads + Wait + Sync>(rt: &R, alloc: Global, call: Call) -> Result<Found, Unmade> {
    match call {
        Call::Block => Ok(simulators::block(alloc)),
        Call::PlanCopy => simulators::plan_copy(alloc),
        Call::SimNew => simulators::sim_new(alloc),
        Call::SimReserve(made) => simulators::sim_reserve(alloc, made),
        Call::SimStep => simulators::sim_step(alloc),
        Call::ReservedSteps => simulators::reserved_steps(alloc),
        Call::Replay => scripts::replay(alloc),
        Call::Moves => scripts::script_moves(alloc),
        Call::ReadInput => Ok(scripts::input(alloc)),
        Call::ReadSetup => scripts::setup(alloc),
        Call::WriteReport => scripts::written(alloc),
        Call::Run(share) => races::run(rt, alloc, share),
        Call::ReplayBytes => Ok(reports::replayed(alloc)),
        Call::RaceBytes(share) => Ok(reports::raced(rt, alloc, share)),
    }
}

/// Makes a call, and once more if it is refused: then it has to give its answer.
fn find<R: Threads + Wait + Sync>(rt: &R, alloc: Global, call: Call) -> Result<Found, Unmade> {
    let first = make(rt, alloc, call)?;
    if !matches!(first, Found::Refused(_)) {
        return Ok(first);
    }
    Ok(match make(rt, alloc, call) {
        Ok(Found::Answered) => first,
        _ => Found::Wrong("once more it is refused again or wrong"),
    })
}

/// Makes the call of a case, prints what it came to, and returns whether it may come to that.
fn print_call<R: Print + AllocGlobal + Threads + Wait + Sync>(
    rt: &R,
    case: Case,
) -> io::Result<bool> {
    let name = case.name;
    let found = find(rt, rt.alloc(), case.call);
    let (what, then, answer) = match found {
        Ok(Found::Answered) => (case.answer, "", ""),
        Ok(Found::AnsweredAtLast) => (case.answer, ", and a further allocation is refused", ""),
        Ok(Found::Refused(refusal)) => {
            (
                refusal.name(),
                ", all as before, and once more: ",
                case.answer,
            )
        }
        Err(Unmade::OutOfMemory) => ("refused before the call", "", ""),
        Ok(Found::Wrong(what)) | Err(Unmade::Wrong(what)) => ("wrong: ", what, ""),
    };
    println!(rt; "{name}: {what}{then}{answer}")?;
    Ok(!matches!(found, Ok(Found::Wrong(_)) | Err(Unmade::Wrong(_))))
}

/// Makes the call of this name, or all, and returns whether nothing wrong is found.
fn make_calls<R: Print + AllocGlobal + Threads + Wait + Sync>(
    rt: &R,
    name: Option<&str>,
) -> io::Result<bool> {
    let mut is_right = true;
    let mut count: usize = 0;
    for case in cases() {
        if name.is_none_or(|name| name == case.name) {
            is_right &= print_call(rt, case)?;
            count = count.saturating_add(1);
        }
    }
    if count == 0 {
        println!(rt; "there is no such call")?;
    }
    Ok(is_right && count > 0)
}

/// The first word of the command line.
fn word(rt: &(impl Env + AllocGlobal)) -> io::Result<Option<String>> {
    Ok(env::args(rt)?.nth(1))
}

fn main(rt: HostRuntime) -> io::Result<ExitCode> {
    let word = match word(&rt) {
        Ok(word) => word,
        Err(error) => {
            if error.kind() != io::ErrorKind::OutOfMemory {
                return Err(error);
            }
            println!(rt; "refused before the call")?;
            return Ok(ExitCode::SUCCESS);
        }
    };
    let name = word.as_ref().map(|word| word.as_str());
    Ok(if make_calls(&rt, name)? {
        ExitCode::SUCCESS
    } else {
        ExitCode::FAILURE
    })
}
