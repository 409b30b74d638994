//! Agents in threads that send their moves to the one owner of the simulator.

ghost use Rattle.std.specs.Prelude.{◌≡◌, ◌<◌, ◌≤◌, ◌^◌, ◌↔◌, length, IfOk, IsErrOf};
ghost use Rattle.rtrb.specs.Ring.{known_free};
ghost use Rattle.sab_sim.specs.Fits.{IsOnly};
ghost use Rattle.sab_race.specs.Moves.{count_of};
ghost use Rattle.sab_race.specs.Race.{IsRace};
ghost use Rattle.sab_sim.specs.declared.sim.TheConstants.Sim.{MAX_ENTRIES};

use crate::feeding::feed;
use crate::gate::Gate;
use crate::lane::Lane;
use crate::owner::{drain, poll};
use crate::race::Race;
use crate::race_fault::RaceFault;
use crate::route::Route;
use crate::script_moves::MAX_SPINS;
use rtrb::{Producer, RingBuffer};
use sab_sim::{Move, Plan, Report};
use std::alloc::Global;
use std::sync::Arc;
use std::thread;
use std::thread::{JoinHandle, Threads};

/// Runs each agent in a thread of its own, which sends its moves to the caller by a ring, and returns the report of
/// what happened.
///
/// Each agent sends its `moves`, by `feed`. The caller goes round the rings and makes what comes, until all moves are
/// made or none came in `patience` rounds in a row; then it waits for the threads to end, makes what the rings still
/// hold, and makes what is left over without calls of the gate. Refused are, in this order, agents with more than 2^20
/// moves in all (TooManyMoves), and a race for which there is no memory (OutOfMemory) or no thread (NoThread). In every
/// case each thread that was started has ended; after a refusal the plan is dropped. `spins` is at most [`MAX_SPINS`].
pub fn run_rings<R: Threads, G: Gate + 'static>(
    rt: &R,
    alloc: Global,
    plan: Plan,
    spins: u32,
    patience: u32,
    gate: Arc<G>,
) -> Result<Report, RaceFault>
    requires { spins ≤ MAX_SPINS }
    ensures race { IfOk result (λ report. IsRace plan spins report) }
    ensures only { IfOk result (λ report. IsOnly plan report) }
    ensures too_many { IsErrOf result RaceFault.TooManyMoves ↔ (MAX_ENTRIES < count_of plan.scripts spins) }
{
    run_rings_mixed(rt, alloc, plan, spins, patience, gate, 0)
}

/// The same, but the caller doesn't go round: at which ring it begins to look for its next move is drawn from a seed.
///
/// From there on it looks into each ring until one gives a move, so that what a round is stays the same. By the seed 0
/// it goes round.
pub fn run_rings_mixed<R: Threads, G: Gate + 'static>(
    rt: &R,
    alloc: Global,
    plan: Plan,
    spins: u32,
    patience: u32,
    gate: Arc<G>,
    seed: u64,
) -> Result<Report, RaceFault>
    requires { spins ≤ MAX_SPINS }
    ensures race { IfOk result (λ report. IsRace plan spins report) }
    ensures only { IfOk result (λ report. IsOnly plan report) }
    ensures too_many { IsErrOf result RaceFault.TooManyMoves ↔ (MAX_ENTRIES < count_of plan.scripts spins) }
{
    let mut race = Race::new(alloc, plan, spins)?;
    let mut lanes = Vec::with_capacity(alloc, race.agents() as usize)?;
    let mut route = Route::new(seed);
    run_threads(
        rt, alloc, &mut race, &mut lanes, &gate, &mut route, patience,
    )?;
    drain(&mut race, &mut lanes, &*gate, &mut route);
    Ok(race.complete())
}

/// Runs each agent in a thread that sends its moves by a ring of these, makes what comes, and waits for the threads to
/// end.
fn run_threads<R: Threads, G: Gate + 'static>(
    rt: &R,
    alloc: Global,
    race: &mut Race,
    lanes: &mut Vec<Lane>,
    gate: &Arc<G>,
    route: &mut Route,
    patience: u32,
) -> Result<(), RaceFault>
    ensures plan { race.new.plan ≡ race.old.plan }
    ensures spins { race.new.spins ≡ race.old.spins }
    ensures err { IsErrOf result RaceFault.TooManyMoves → ⊥ }
{
    let mut threads = Vec::with_capacity(alloc, race.agents() as usize)?;
    let outcome = start_all(rt, alloc, race, lanes, &mut threads, gate);
    if outcome.is_ok() {
        poll(race, lanes, &**gate, route, patience);
    }
    for thread in threads {
        thread.join(rt);
    }
    outcome
}

/// Starts a thread for each agent, up to the first that can't be started.
fn start_all<R: Threads, G: Gate + 'static>(
    rt: &R,
    alloc: Global,
    race: &Race,
    lanes: &mut Vec<Lane>,
    threads: &mut Vec<JoinHandle<()>>,
    gate: &Arc<G>,
) -> Result<(), RaceFault>
    ensures { IsErrOf result RaceFault.TooManyMoves → ⊥ }
{
    for agent in 0..race.agents() {
        let (lane, thread) = start(rt, alloc, race, agent, gate)?;
        if let Err(refused) = threads.push(thread) {
            refused.value.join(rt);
            return Err(RaceFault::OutOfMemory);
        }
        if lanes.push(lane).is_err() {
            return Err(RaceFault::OutOfMemory);
        }
    }
    Ok(())
}

/// Starts an agent's thread, and gives the other end of its ring.
fn start<R: Threads, G: Gate + 'static>(
    rt: &R,
    alloc: Global,
    race: &Race,
    agent: u32,
    gate: &Arc<G>,
) -> Result<(Lane, JoinHandle<()>), RaceFault>
    requires { agent < length race.now.plan.scripts }
    ensures { IsErrOf result RaceFault.TooManyMoves → ⊥ }
{
    let moves = race.copy_moves(alloc, agent)?;
    let (producer, ring) = RingBuffer::new(alloc, moves.len())?;
    let gate = Arc::try_clone(gate)?;
    let feeding = move ||
        requires { (length moves.items ≤ MAX_ENTRIES) × (length moves.items ≤ known_free producer) }
    { feed_own(producer, agent, moves, gate) };
    let lane = Lane::new(agent, ring);
    match thread::spawn(rt, feeding) {
        Ok(thread) => Ok((lane, thread)),
        Err(_) => Err(RaceFault::NoThread),
    }
}

/// What an agent's thread does.
fn feed_own<G: Gate>(mut ring: Producer<Move>, agent: u32, moves: Vec<Move>, gate: Arc<G>)
    requires most { length moves.items ≤ MAX_ENTRIES }
    requires room { length moves.items ≤ known_free ring }
{
    feed(&mut ring, agent, moves.as_slice(), &*gate);
}
