//! Agents in threads that take turns under one lock.

ghost use Rattle.std.specs.Prelude.{◌≡◌, ℕ, ◌<◌, ◌≤◌, ◌^◌, ◌↔◌, IfOk, IsErrOf};
ghost use Rattle.sab_plan.specs.Plan.{PlanParts};
ghost use Rattle.sab_sim.specs.Fits.{IsOnly};
ghost use Rattle.sab_race.specs.Moves.{count_of};
ghost use Rattle.sab_race.specs.Race.{IsRace, no_plan};
ghost use Rattle.sab_sim.specs.declared.sim.TheConstants.Sim.{MAX_ENTRIES};

use crate::gate::Gate;
use crate::race::Race;
use crate::race_fault::RaceFault;
use crate::script_moves::MAX_SPINS;
use sab_sim::{Plan, Report};
use std::alloc::Global;
use std::marker::{Brand, PhantomData};
use std::sync::{Arc, Mutex, Wait};
use std::thread;
use std::thread::Threads;

/// Which race it is, by its plan and its spins. It stands in the type of what is locked: each call of `run_locked` is
/// another one.
trait RaceName {
    ghost plan: { PlanParts };

    ghost spins: { ℕ };
}

impl RaceName for Brand {
    ghost plan = { no_plan };

    ghost spins = { 0 };
}

/// What is locked: the race of that name.
#[derive(Drop)]
struct Locked<N: RaceName> {
    race: Race,
    name: PhantomData<N>,
    ghost is_plan: { race.plan ≡ N.plan },
    ghost is_spins: { race.spins ≡ N.spins },
}

impl<N: RaceName> Locked<N> {
    fn new(race: Race) -> Locked<N>
        requires plan { race.plan ≡ N.plan }
        requires spins { race.spins ≡ N.spins }
    {
        Locked {
            race,
            name: PhantomData,
        }
    }

    /// How many moves of an agent are left; none, where there is no such agent.
    fn left(&self, agent: u32) -> u32 {
        if agent < self.race.agents() {
            self.race.left(agent)
        } else {
            0
        }
    }

    /// Makes the next move of an agent, if one is left.
    fn make_next(&mut self, agent: u32) {
        self.race.make_next(agent);
    }

    /// Makes all that is left, and gives the report.
    fn complete(self) -> Report
        ensures race { IsRace N.plan N.spins result }
        ensures only { IsOnly N.plan result }
    {
        self.race.complete()
    }
}

/// Runs each agent in a thread of its own, each of its moves under one lock, and returns the report of what happened.
///
/// Each agent makes its `moves`. What is left over once the threads have ended is made without calls of the gate.
/// Refused are, in this order, agents with more than 2^20 moves in all (TooManyMoves), and a race for which there is no
/// memory (OutOfMemory) or no thread (NoThread). In every case each thread that was started has ended; after a refusal
/// the plan is dropped. `spins` is at most [`MAX_SPINS`].
pub fn run_locked<R: Threads + Wait + Sync, G: Gate + 'static>(
    rt: &R,
    alloc: Global,
    plan: Plan,
    spins: u32,
    gate: Arc<G>,
) -> Result<Report, RaceFault>
    requires { spins ≤ MAX_SPINS }
    ensures race { IfOk result (λ report. IsRace plan spins report) }
    ensures only { IfOk result (λ report. IsOnly plan report) }
    ensures too_many { IsErrOf result RaceFault.TooManyMoves ↔ (MAX_ENTRIES < count_of plan.scripts spins) }
{
    run_named::<Brand, R, G>(rt, alloc, plan, spins, &*gate)
}

/// The same for the race of a name.
fn run_named<N: RaceName + Send + Sync, R: Threads + Wait + Sync, G: Gate>(
    rt: &R,
    alloc: Global,
    plan: Plan,
    spins: u32,
    gate: &G,
) -> Result<Report, RaceFault>
    requires spins { spins ≤ MAX_SPINS }
    requires is_plan { plan ≡ N.plan }
    requires is_spins { spins ≡ N.spins }
    ensures race { IfOk result (λ report. IsRace plan spins report) }
    ensures only { IfOk result (λ report. IsOnly plan report) }
    ensures too_many { IsErrOf result RaceFault.TooManyMoves ↔ (MAX_ENTRIES < count_of plan.scripts spins) }
{
    let race = Race::new(alloc, plan, spins)?;
    let agents = race.agents();
    let lock = Mutex::new(Locked::<N>::new(race));
    if !run_threads(rt, &lock, gate, agents) {
        return Err(RaceFault::NoThread);
    }
    Ok(lock.into_inner().complete())
}

/// Whether each agent's thread could be started; all that were have ended.
///
/// The lock is held while they are started, so that they begin together.
fn run_threads<N: RaceName + Send + Sync, R: Threads + Wait + Sync, G: Gate>(
    rt: &R,
    lock: &Mutex<Locked<N>>,
    gate: &G,
    agents: u32,
) -> bool {
    thread::scope(thread::scope_env(), rt, |scope| -> bool {
        let _held = lock.lock(rt);
        for agent in 0..agents {
            let started = scope.spawn(move || make_moves(rt, lock, gate, agent));
            if started.is_err() {
                return false;
            }
        }
        true
    })
}

/// Makes one agent's moves, each under the lock.
fn make_moves<N: RaceName, R: Wait, G: Gate>(
    rt: &R,
    lock: &Mutex<Locked<N>>,
    gate: &G,
    agent: u32,
) {
    let left = lock.lock(rt).left(agent);
    for k in 0..left {
        gate.before(agent, k);
        lock.lock(rt).make_next(agent);
        gate.applied(agent, k);
    }
}
