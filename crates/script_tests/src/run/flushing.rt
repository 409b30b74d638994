//! What jobs, races, verdicts and searches write is flushed, and a flush that fails is reported.
//!
//! The program's standard output has no flush that can fail, so the built program can't show this.

use sab_automata::Timeouts;
use sab_cli::command::{Job, RaceJob, RunForm, SearchForm, SearchJob};
use sab_cli::exit::Outcome;
use sab_cli::run::{Failure, judge_trace, run, run_race, run_search};
use sab_replay::faults::ToolFault;
use sab_replay::report::{Format, Lines, ReportForm, VerdictFormat};
use sab_replay::script_runner::Share;
use std::alloc::Global;
use std::io;
use std::io::Write;
use std::random::RandomSource;
use std::sync::Wait;
use std::test::Fail;
use std::thread::Threads;
use test_helpers::{STORE_AND_LOAD, STORED_AND_LOADED, expect};

/// Takes all that is written, and knows whether it was flushed since; a flush can be made to fail.
#[derive(Drop)]
struct Basin {
    taken: Vec<u8>,
    is_flushed: bool,
    is_stuck: bool,
}

impl Write for Basin {
    fn write(&mut self, buf: &[u8]) -> io::Result<usize> {
        self.taken.extend_from_slice(buf)?;
        self.is_flushed = false;
        Ok(buf.len())
    }

    fn flush(&mut self) -> io::Result<()> {
        if self.is_stuck {
            return Err(io::ErrorKind::StorageFull.into());
        }
        self.is_flushed = true;
        Ok(())
    }
}

impl Basin {
    /// Nothing is taken yet.
    fn new(alloc: Global, is_stuck: bool) -> Basin {
        Basin {
            taken: Vec::new(alloc),
            is_flushed: false,
            is_stuck,
        }
    }

    /// Whether just this text was written and flushed, with this outcome; if flushes fail, whether it was written, and
    /// the fault is WriteFailed.
    fn has(&self, text: &str, returned: Result<Outcome, Failure>, outcome: Outcome) -> bool {
        let is_reported = match returned {
            Ok(found) => found == outcome && self.is_flushed,
            Err(failure) => failure.fault == ToolFault::WriteFailed && self.is_stuck,
        };
        is_reported && self.taken.as_slice() == text.as_bytes()
    }
}

/// A whole plain report.
const PLAIN: RunForm = RunForm::Report(ReportForm {
    format: Format::Plain,
    lines: Lines::All,
});

/// The script that keeps a run of the agent that stores and loads, whether the run was a replay or a race.
const KEPT: &str = concat!(
    r#"{"agents":[{"block":true,"calls":[["store","a",0,300],["load","a",0]]}],"bytes":1,"#,
    r#""schedule":[0,0,0,0,0,0],"#,
    r#""views":[{"kind":"Uint8","length":null,"name":"a","offset":0}]}"#,
    "\n"
);

/// A job, its script, its outcome, and what it writes.
const JOBS: [(Job, &str, Outcome, &str); 5] = [
    (
        Job::Replay {
            form: PLAIN,
            finish: true,
        },
        STORE_AND_LOAD,
        Outcome::Done,
        STORED_AND_LOADED,
    ),
    (
        Job::Replay {
            form: RunForm::Script,
            finish: true,
        },
        STORE_AND_LOAD,
        Outcome::Done,
        KEPT,
    ),
    (
        Job::Check,
        STORE_AND_LOAD,
        Outcome::Done,
        "ok: 1 block, 1 view, 1 agent, 2 calls, 6 moves\n",
    ),
    (
        Job::Check,
        "[1",
        Outcome::Refused,
        "line 1, column 3: 16 NotJson: the text ends too early\n",
    ),
    (
        Job::Judge {
            format: VerdictFormat::Plain,
            finish: true,
        },
        STORE_AND_LOAD,
        Outcome::Done,
        "no data race: 2 accesses by 1 agent in the script's calls of Atomics\n",
    ),
];

/// Whether a job has this outcome and writes just this text, which is flushed; or reports that its flush fails.
fn is_done(
    alloc: Global,
    job: Job,
    script: &str,
    outcome: Outcome,
    text: &str,
    is_stuck: bool,
) -> bool {
    let mut output = Basin::new(alloc, is_stuck);
    let returned = run(alloc, job, false, &mut script.as_bytes(), &mut output);
    output.has(text, returned, outcome)
}

#[test]
fn a_job_flushes_what_it_writes(rt: HostRuntime) -> Result<(), Fail> {
    for &(job, script, outcome, text) in &JOBS {
        for is_stuck in [false, true] {
            let is_done = is_done(rt.alloc(), job, script, outcome, text, is_stuck);
            expect(is_done, text)?;
        }
    }
    Ok(())
}

/// In which form a race is written, and the text.
const RACES: [(RunForm, &str); 2] = [(PLAIN, STORED_AND_LOADED), (RunForm::Script, KEPT)];

/// By which share, mixed by which seed, and whether it is to finish.
const WAYS: [(Share, Option<u64>, bool); 2] = [
    (Share::Lock, None, false),
    (Share::Ring, Some(7), true),
];

/// Whether a race of the agent that stores and loads writes just this text, which is flushed; or reports that its flush
/// fails.
fn is_raced<R: AllocGlobal + Threads + Wait + Sync + RandomSource>(
    rt: &R,
    form: RunForm,
    (share, mix, finish): (Share, Option<u64>, bool),
    text: &str,
    is_stuck: bool,
) -> bool {
    let race = RaceJob {
        share,
        spins: 0,
        mix,
        form,
        finish,
    };
    let mut output = Basin::new(rt.alloc(), is_stuck);
    let returned = run_race(rt, race, false, &mut STORE_AND_LOAD.as_bytes(), &mut output);
    output.has(text, returned, Outcome::Done)
}

#[test]
fn a_race_flushes_what_it_writes(rt: HostRuntime) -> Result<(), Fail> {
    for &(form, text) in &RACES {
        for way in &WAYS {
            for is_stuck in [false, true] {
                expect(is_raced(&rt, form, *way, text, is_stuck), text)?;
            }
        }
    }
    Ok(())
}

/// Two agents that write one byte.
const RACY_TRACE: &str =
    r#"{"event":0,"agent":0,"call":0,"does":"write","block":0,"byte":7,"size":1,"read":false,"write":true,"atomic":false,"waiters":false,"source":null}
{"event":1,"agent":1,"call":0,"does":"write","block":0,"byte":7,"size":1,"read":false,"write":true,"atomic":false,"waiters":false,"source":null}
"#;

/// The verdict on them.
const ITS_RACE: &str =
    "data race at byte 7 of block 0: agent 0 writes byte 7 at 0, agent 1 writes byte 7 at 1; nothing of agent 0 happens before 1\n";

/// Whether the verdict on the racy trace is written and flushed; or it is reported that its flush fails.
fn is_judged(alloc: Global, is_stuck: bool) -> bool {
    let mut output = Basin::new(alloc, is_stuck);
    let input = &mut RACY_TRACE.as_bytes();
    let returned = judge_trace(alloc, VerdictFormat::Plain, input, &mut output);
    output.has(ITS_RACE, returned, Outcome::Racy)
}

#[test]
fn a_verdict_on_a_trace_is_flushed(rt: HostRuntime) -> Result<(), Fail> {
    for is_stuck in [false, true] {
        expect(is_judged(rt.alloc(), is_stuck), ITS_RACE)?;
    }
    Ok(())
}

/// An agent that waits without a timeout.
const SLEEPER: &str = r#"{"blocks":[4],
"views":[{"name":"m","kind":"Int32","block":0,"offset":0,"length":null}],
"automata":[{"name":"sleeper","nodes":[{"call":["wait","m",0,0],"edges":[["ok",1]]},{"finished":true}]}],
"agents":[{"automaton":"sleeper","block":true}]}"#;

/// What a search finds.
const ITS_DEADLOCK: &str = "closed: 2 states, 1 act, timeouts early\ndeadlock: 1 state; 0 wait\n";

/// Whether what is found is written and flushed; or it is reported that its flush fails.
fn is_searched(alloc: Global, is_stuck: bool) -> bool {
    let search = SearchJob {
        timeouts: Timeouts::Early,
        limit: 2,
        form: SearchForm::Findings {
            format: VerdictFormat::Plain,
            states: false,
        },
    };
    let mut output = Basin::new(alloc, is_stuck);
    let returned = run_search(alloc, search, false, &mut SLEEPER.as_bytes(), &mut output);
    output.has(ITS_DEADLOCK, returned, Outcome::Flawed)
}

#[test]
fn a_search_flushes_what_it_writes(rt: HostRuntime) -> Result<(), Fail> {
    for is_stuck in [false, true] {
        expect(is_searched(rt.alloc(), is_stuck), ITS_DEADLOCK)?;
    }
    Ok(())
}
