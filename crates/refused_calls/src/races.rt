//! Agents in threads.

use crate::found::{Found, Refusal, Unmade};
use crate::gate::Counter;
use crate::plans::four_adders;
use sab_race::{RaceFault, run_locked, run_rings};
use sab_replay::script_runner::Share;
use sab_sim::{Progress, Report};
use std::alloc::Global;
use std::sync::{Arc, Wait};
use std::thread::Threads;

/// How many moves four agents of a hundred calls each make.
const MOVES: u64 = 1_200;

/// How many rounds in a row the owner of the rings goes without a move: so many that each agent gets a processor
/// meanwhile, also on a busy machine. The gate doesn't see moves that are made after the owner's last round.
const PATIENCE: u32 = 4_000_000_000;

/// Four agents run in threads, none of which goes on afterwards. (One owner more of the gate takes no memory.)
pub fn run<R: Threads + Wait + Sync>(rt: &R, alloc: Global, share: Share) -> Result<Found, Unmade> {
    let plan = four_adders(alloc)?;
    let gate = Arc::new(alloc, Counter::new())?;
    let given = Arc::try_clone(&gate)?;
    let raced = match share {
        Share::Lock => run_locked(rt, alloc, plan, 0, given),
        Share::Ring => run_rings(rt, alloc, plan, 0, PATIENCE, given),
    };
    Ok(match raced {
        Ok(report) => Found::answer(gate.is_at(MOVES) && is_right(&report)),
        Err(RaceFault::OutOfMemory) => ended(&gate, Refusal::OutOfMemory),
        Err(RaceFault::NoThread) => ended(&gate, Refusal::NoThread),
        Err(RaceFault::TooManyMoves) => Found::Wrong("another fault"),
    })
}

/// Of a refused race, each of whose threads has to have ended.
fn ended(gate: &Counter, refusal: Refusal) -> Found {
    if gate.is_at_rest() {
        Found::Refused(refusal)
    } else {
        Found::Wrong("a thread goes on")
    }
}

/// Whether a report says that four agents each added 1 a hundred times.
fn is_right(report: &Report) -> bool {
    let whole = Progress {
        returned: 100,
        total: 100,
    };
    let is_sum = match report.blocks.as_slice() {
        [bytes] => bytes.as_slice() == [0x90, 0x01, 0, 0].as_slice(),
        _ => false,
    };
    is_sum && report.journal.len() == 1_200 && report.agents.as_slice() == [whole; 4].as_slice()
}
