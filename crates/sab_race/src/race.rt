//! A race as far as it came.

ghost use Rattle.std.specs.Prelude.{◌≡◌, ◌≢◌, ℕ, ◌<◌, ◌≤◌, ◌↔◌, length, All, IsTrue, IsFalse, IfOk, IfSome, IfNone};
ghost use Rattle.std.specs.Prelude.{IsErrOf, SomeIndex};
ghost use Rattle.sab_plan.specs.Script.{ScriptParts};
ghost use Rattle.sab_plan.specs.Plan.{calls_of};
ghost use Rattle.sab_sim.specs.Fits.{IsOnly};
ghost use Rattle.sab_race.specs.Moves.{moves_of, count_of};
ghost use Rattle.sab_race.specs.Agenda.{agenda_at, left_in, advanced, HasNext, IsNext};
ghost use Rattle.sab_race.specs.Race.{IsRace, IsDone, AreFresh};
ghost use Rattle.sab_sim.specs.declared.sim.TheConstants.Sim.{MAX_ENTRIES};

use crate::agenda::Agenda;
use crate::count::count_moves;
use crate::race_fault::RaceFault;
use crate::script_moves::MAX_SPINS;
use sab_sim::{Move, Plan, Report, Script, Sim};
use std::alloc::{AllocError, Global};
use std::marker::Model;

/// A simulator, and what each agent still has to do.
///
/// At all times each agent's part of the moves so far is the first so many of its moves, and there is room for the
/// rest.
#[derive(Drop)]
pub struct Race {
    sim: Sim,
    spins: u32,
    agendas: Vec<Agenda>,
}

impl Model for Race {
    ghost use Rattle.std.specs.Prelude.{length};
    ghost use Rattle.sab_race.specs.Race.{RaceParts, IsUnderWay};

    ghost Value = { RaceParts };

    ghost view = { λ race. record
        { plan = race.sim.plan; spins = race.spins; schedule = race.sim.moves; agendas = race.agendas.items } };

    ghost invariant = { λ race. IsUnderWay race.sim.plan race.spins race.sim.moves (length race.sim.journal)
        race.sim.reserved
        race.agendas.items };
}

/// What each agent has to do at the start.
fn make_agendas(alloc: Global, scripts: &[Script], spins: u32) -> Result<Vec<Agenda>, AllocError>
    requires agents { length scripts.now ≤ Plan.MAX_AGENTS }
    requires calls { All (λ (s : ScriptParts). length s.calls ≤ Plan.MAX_CALLS) scripts.now }
    requires spins { spins ≤ MAX_SPINS }
    ensures { IfOk result (λ agendas. AreFresh scripts.now spins agendas.items) }
{
    let mut agendas = Vec::with_capacity(alloc, scripts.len())?;
    for (agent, script) in scripts.iter().enumerate() {
        agendas.push(Agenda::new(alloc, script, agent as u32, spins)?)?;
    }
    Ok(agendas)
}

impl Race {
    /// A race in which no move was made, with room for all of them.
    pub fn new(alloc: Global, plan: Plan, spins: u32) -> Result<Race, RaceFault>
        requires { spins ≤ MAX_SPINS }
        ensures plan { IfOk result (λ race. race.plan ≡ plan) }
        ensures spins { IfOk result (λ race. race.spins ≡ spins) }
        ensures too_many { IsErrOf result RaceFault.TooManyMoves ↔ (MAX_ENTRIES < count_of plan.scripts spins) }
    {
        let total = count_moves(plan.scripts(), spins);
        if total > Sim::MAX_ENTRIES {
            return Err(RaceFault::TooManyMoves);
        }
        let agendas = make_agendas(alloc, plan.scripts(), spins)?;
        let mut sim = Sim::new(alloc, plan)?;
        sim.reserve(total as u32)?;
        Ok(Race {
            sim,
            spins,
            agendas,
        })
    }

    /// How many agents there are.
    pub fn agents(&self) -> u32
        ensures agendas { result ≡ length self.now.agendas }
        ensures scripts { result ≡ length self.now.plan.scripts }
        ensures most { result ≤ Plan.MAX_AGENTS }
    {
        self.sim.plan().scripts().len() as u32
    }

    /// How many moves of an agent are left.
    pub fn left(&self, agent: u32) -> u32
        requires { agent < length self.now.agendas }
        ensures { result ≡ left_in (agenda_at self.now.agendas agent) }
    {
        self.agendas[agent as usize].left()
    }

    /// Whether an agent has a move left.
    pub fn has_next(&self, agent: u32) -> bool
        ensures { IsTrue result ↔ HasNext self.now.agendas agent }
    {
        agent < self.agents() && self.left(agent) > 0
    }

    /// Whether any agent has a move left.
    pub fn has_any_next(&self) -> bool
        ensures { IsTrue result ↔ SomeIndex self.now.agendas (λ a. HasNext self.now.agendas a) }
    {
        self.agendas.iter().any(|agenda| agenda.left() > 0)
    }

    /// All moves of an agent, once more.
    pub fn copy_moves(&self, alloc: Global, agent: u32) -> Result<Vec<Move>, AllocError>
        requires { agent < length self.now.plan.scripts }
        ensures moves { IfOk result (λ moves. moves.items
            ≡ moves_of (calls_of self.now.plan agent) agent self.now.spins) }
        ensures most { IfOk result (λ moves. length moves.items ≤ MAX_ENTRIES) }
    {
        self.agendas[agent as usize].copy_moves(alloc)
    }

    /// Makes the next move of an agent that has one left.
    fn make(&mut self, agent: u32)
        requires agent { agent < length self.old.agendas }
        requires left { 0 < left_in (agenda_at self.old.agendas agent) }
        ensures plan { self.new.plan ≡ self.old.plan }
        ensures spins { self.new.spins ≡ self.old.spins }
        ensures agendas { self.new.agendas ≡ advanced self.old.agendas agent }
    {
        let next = self.agendas[agent as usize].take_next();
        let Ok(()) = self.sim.step(next) else {
            unreachable!()
        };
    }

    /// Makes the next move of an agent, if one is left, and returns whether one was.
    pub fn make_next(&mut self, agent: u32) -> bool
        ensures plan { self.new.plan ≡ self.old.plan }
        ensures spins { self.new.spins ≡ self.old.spins }
        ensures made { IsTrue result → self.new.agendas ≡ advanced self.old.agendas agent }
        ensures none { IsFalse result → self.new ≡ self.old }
        ensures left { IsTrue result ↔ HasNext self.old.agendas agent }
    {
        if !self.has_next(agent) {
            return false;
        }
        self.make(agent);
        true
    }

    /// Makes a move if it is the agent's next one, and returns the number that it has among the agent's.
    pub fn make_given(&mut self, agent: u32, given: Move) -> Option<u32>
        ensures plan { self.new.plan ≡ self.old.plan }
        ensures spins { self.new.spins ≡ self.old.spins }
        ensures made { IfSome result
            (λ k. IsNext self.old.agendas agent k given × (self.new.agendas ≡ advanced self.old.agendas agent)) }
        ensures none { IfNone result ((self.new ≡ self.old) × ((k : ℕ) → IsNext self.old.agendas agent k given → ⊥)) }
    {
        if !self.has_next(agent) {
            return None;
        }
        let (k, next) = self.agendas[agent as usize].next();
        if next != given {
            return None;
        }
        self.make(agent);
        Some(k)
    }

    /// Makes all that is left of an agent.
    fn make_all_of(&mut self, agent: u32)
        requires { agent < length self.old.agendas }
        ensures plan { self.new.plan ≡ self.old.plan }
        ensures spins { self.new.spins ≡ self.old.spins }
        ensures count { length self.new.agendas ≡ length self.old.agendas }
        ensures done { left_in (agenda_at self.new.agendas agent) ≡ 0 }
        ensures others { (b : ℕ) → b ≢ agent → agenda_at self.new.agendas b ≡ agenda_at self.old.agendas b }
    {
        let left = self.left(agent);
        for _ in 0..left {
            self.make(agent);
        }
    }

    /// Makes all that is left.
    fn make_rest(&mut self)
        ensures plan { self.new.plan ≡ self.old.plan }
        ensures spins { self.new.spins ≡ self.old.spins }
        ensures done { IsDone self.new }
    {
        let agents = self.agents();
        for agent in 0..agents {
            self.make_all_of(agent);
        }
    }

    /// The report of a race in which all moves were made.
    fn finish(self) -> Report
        requires { IsDone self }
        ensures race { IsRace self.plan self.spins result }
        ensures only { IsOnly self.plan result }
    {
        let Race {
            sim,
            spins: _,
            agendas: _,
        } = self;
        sim.finish()
    }

    /// Makes all that is left, and gives the report.
    pub fn complete(mut self) -> Report
        ensures race { IsRace self.plan self.spins result }
        ensures only { IsOnly self.plan result }
    {
        self.make_rest();
        self.finish()
    }
}
