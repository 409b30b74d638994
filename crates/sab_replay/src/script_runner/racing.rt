//! From a script to the text of the report of a race.

ghost use Rattle.std.specs.Prelude.{◌≤◌, IfOk, OnOk, IfErr};
ghost use Rattle.sab_replay.specs.ScriptRunner.Racing.{IsRaceOf, IsUnraced, Races, IsRaceFault};

use crate::faults::ToolFault;
use crate::script_runner::report::write_report;
use crate::script_runner::script::setup_of;
use sab_race::{MAX_SPINS, Mix, Share, run_locked, run_rings_mixed};
use sab_sim::{Plan, Report};
use std::alloc::Global;
use std::io::Write;
use std::sync::{Arc, Wait};
use std::thread::Threads;

/// How many rounds in a row the owner of the rings goes without a move before it waits for the threads to end.
const PATIENCE: u32 = 1_000_000;

/// After how many of 16 later moves the thread that made them yields, where threads are mixed that share one lock: so
/// many that another one often takes it, and not so many that a race takes a third as long again.
const LOCK_RATE: u32 = 4;

/// After how many of 16 later moves the owner of the rings yields, where threads are mixed that send it their moves. It
/// needs to yield seldom, since it draws from the seed whose move comes next.
const RING_RATE: u32 = 2;

/// Runs the agents of a script in threads, and writes the text of the report; it doesn't flush.
///
/// The script's schedule is read and checked and then not used: the report's is the order in which the moves took
/// effect. An agent steps `spins` times, at most [`MAX_SPINS`], at each wait before the wait's time is up. WriteFailed
/// where a write failed; nothing is said then of how much was written. Every other fault is a refusal of the script,
/// agents with more than 2^20 moves in all (TooManyMoves), want of memory, or a thread that couldn't be started
/// (NoThread), and nothing was written.
pub fn race_bytes<R: Threads + Wait + Sync, W: Write>(
    rt: &R,
    alloc: Global,
    script: &[u8],
    share: Share,
    spins: u32,
    w: &mut W,
) -> Result<(), ToolFault>
    requires { spins ≤ MAX_SPINS }
    ensures ok { OnOk result (Races (W.contents w.old) (W.contents w.new) script.now spins) }
    ensures err { IfErr result (IsRaceFault (W.contents w.old) (W.contents w.new) script.now spins) }
{
    race_mixed(rt, alloc, script, share, spins, 0, w)
}

/// The same, with the threads mixed by a seed: they yield as [`Mix`] says, and the owner of the rings begins at one
/// that is drawn when it looks for its next move.
///
/// By the seed 0 none yields, and the owner goes round.
pub fn race_mixed<R: Threads + Wait + Sync, W: Write>(
    rt: &R,
    alloc: Global,
    script: &[u8],
    share: Share,
    spins: u32,
    seed: u64,
    w: &mut W,
) -> Result<(), ToolFault>
    requires { spins ≤ MAX_SPINS }
    ensures ok { OnOk result (Races (W.contents w.old) (W.contents w.new) script.now spins) }
    ensures err { IfErr result (IsRaceFault (W.contents w.old) (W.contents w.new) script.now spins) }
{
    let setup = setup_of(alloc, script)?;
    let (plan, _) = setup.into_parts();
    let report = race_plan(rt, alloc, plan, share, spins, seed)?;
    write_report(&report, w)
}

/// Runs the agents of a plan in threads, mixed by a seed, and returns the report of what happened.
pub fn race_plan<R: Threads + Wait + Sync>(
    rt: &R,
    alloc: Global,
    plan: Plan,
    share: Share,
    spins: u32,
    seed: u64,
) -> Result<Report, ToolFault>
    requires { spins ≤ MAX_SPINS }
    ensures race { IfOk result (IsRaceOf plan spins) }
    ensures err { IfErr result (IsUnraced plan spins) }
{
    match share {
        Share::Lock => run_by_lock(rt, alloc, plan, spins, seed),
        Share::Ring => run_by_rings(rt, alloc, plan, spins, seed),
    }
}

/// Runs them under one lock.
fn run_by_lock<R: Threads + Wait + Sync>(
    rt: &R,
    alloc: Global,
    plan: Plan,
    spins: u32,
    seed: u64,
) -> Result<Report, ToolFault>
    requires { spins ≤ MAX_SPINS }
    ensures race { IfOk result (IsRaceOf plan spins) }
    ensures err { IfErr result (IsUnraced plan spins) }
{
    let Ok(gate) = Arc::new(alloc, Mix::new(seed, LOCK_RATE)) else {
        return Err(ToolFault::OutOfMemory);
    };
    Ok(run_locked(rt, alloc, plan, spins, gate)?)
}

/// Runs them by rings. No lock can be taken here, since that needs `Wait`.
fn run_by_rings<R: Threads>(
    rt: &R,
    alloc: Global,
    plan: Plan,
    spins: u32,
    seed: u64,
) -> Result<Report, ToolFault>
    requires { spins ≤ MAX_SPINS }
    ensures race { IfOk result (IsRaceOf plan spins) }
    ensures err { IfErr result (IsUnraced plan spins) }
{
    let Ok(gate) = Arc::new(alloc, Mix::new(seed, RING_RATE)) else {
        return Err(ToolFault::OutOfMemory);
    };
    Ok(run_rings_mixed(rt, alloc, plan, spins, PATIENCE, gate, seed)?)
}
