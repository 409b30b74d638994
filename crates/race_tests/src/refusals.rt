//! Races that are refused.

ghost use Rattle.std.specs.Prelude.{◌≤◌};

use crate::way::{Way, add_one, word_plan};
use sab_race::{MAX_SPINS, NoGate, RaceFault};
use sab_sim::Plan;
use std::alloc::Global;
use std::sync::{Arc, Wait};
use std::test::Fail;
use std::thread::Threads;
use test_helpers::{expect, wait};

/// An agent that waits a thousand times, and one that waits so often and then adds 1 so often.
fn waiters(alloc: Global, waits: usize, additions: usize) -> Result<Plan, Fail> {
    let first = vec![in alloc; wait(0, 0, None); 1_000]?;
    let mut second = vec![in alloc; wait(0, 0, None); waits]?;
    for _ in 0..additions {
        second.push(add_one(0))?;
    }
    word_plan(alloc, &[(true, &first), (true, &second)])
}

/// Whether the race of a plan is refused since it has too many moves, and nobody then has its gate.
fn is_too_long<R: Threads + Wait + Sync>(
    rt: &R,
    alloc: Global,
    way: Way,
    plan: Plan,
    spins: u32,
) -> Result<bool, Fail>
    requires { spins ≤ MAX_SPINS }
{
    let gate = Arc::new(alloc, NoGate)?;
    let raced = way.race(rt, alloc, plan, spins, Arc::try_clone(&gate)?);
    Ok(raced.err() == Some(RaceFault::TooManyMoves) && Arc::strong_count(&gate) == 1)
}

/// The second plan has one move more than a journal can have entries: 1,042 waits of 1,004 moves and 803 additions of
/// three.
#[test]
fn more_moves_than_a_journal_can_have_are_refused(rt: HostRuntime) -> Result<(), Fail> {
    for way in &Way::BOTH {
        let many = waiters(rt.alloc(), 1_000, 0)?;
        let is_refused = is_too_long(&rt, rt.alloc(), *way, many, 1_000)?;
        expect(is_refused, "two million moves")?;
        let one_more = waiters(rt.alloc(), 42, 803)?;
        let is_refused = is_too_long(&rt, rt.alloc(), *way, one_more, 999)?;
        expect(is_refused, "one move too many")?;
    }
    Ok(())
}

/// Sixteen agents that wait 128 times.
fn sixteen_waiters(alloc: Global) -> Result<Plan, Fail> {
    let waits = vec![in alloc; wait(0, 0, None); 128]?;
    word_plan(alloc, &[(true, waits.as_slice()); 16])
}

/// How many moves and entries a race has of agents that make 512 moves for each wait.
fn len_of_race<R: Threads + Wait + Sync>(
    rt: &R,
    alloc: Global,
    way: Way,
    plan: Plan,
) -> Result<(usize, usize), Fail> {
    let report = way.race(rt, alloc, plan, 507, Arc::new(alloc, NoGate)?)?;
    Ok((report.schedule.len(), report.journal.len()))
}

#[test]
fn as_many_moves_as_a_journal_can_have_are_made(rt: HostRuntime) -> Result<(), Fail> {
    for way in &Way::BOTH {
        let plan = sixteen_waiters(rt.alloc())?;
        let len = len_of_race(&rt, rt.alloc(), *way, plan)?;
        expect(len == (1_048_576, 1_048_576), "another number of moves")?;
    }
    Ok(())
}
