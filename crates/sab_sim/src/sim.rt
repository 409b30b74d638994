//! The simulator.

ghost use Rattle.std.specs.Prelude.{◌≡◌, ℕ, ◌<◌, ◌≤◌, ◌^◌, ◌+◌, ◌-◌, ◌++◌, ◌∷◌, [], length, map, min, replicate, All};
ghost use Rattle.std.specs.Prelude.{Err, IsOk, IfOk, OnOk, OnErr, IsOkUnless};
ghost use Rattle.sab_plan.specs.declared.entry.Entry.{Entry};
ghost use Rattle.sab_sim.specs.declared.sim_fault.SimFault.TheVariants.{NoAgent, Full, OutOfMemory};
ghost use Rattle.sab_plan.specs.declared.plan.TheConstants.Plan.{MAX_AGENTS};
ghost use Rattle.sab_plan.specs.Schedule.{agent_of};
ghost use Rattle.sab_object.specs.Object.{zero_blocks, waiters, stands};
ghost use Rattle.sab_plan.specs.Plan.{call_of};
ghost use Rattle.sab_plan.specs.Journal.{returned_of};
ghost use Rattle.sab_sim.specs.Shown.{AtEnd};
ghost use Rattle.sab_sim.specs.States.{HasStates, IsOfWaits};
ghost use Rattle.sab_sim.specs.Fits.{FitsMoves, Fits, IsOnly};
ghost use Rattle.sab_sim.specs.declared.sim.TheConstants.Sim.{MAX_ENTRIES};

use crate::agent::find_agent;
use crate::line::line_at;
use crate::lookup::call_at;
use crate::machine::Machine;
use crate::room::{hand_over, report_progress};
use crate::sim_fault::SimFault;
use sab_block::Block;
use sab_plan::{Call, Entry, Move, Place, Plan, Progress, Report, Waiters};
use std::alloc::{AllocError, Global};
use std::marker::Model;

/// A plan, and how far its agents came with it.
///
/// At all times the journal and the bytes of the blocks are those of the moves so far.
#[derive(Drop)]
pub struct Sim {
    plan: Plan,
    moves: Vec<Move>,
    journal: Vec<Entry>,
    machine: Machine,
    block_room: Vec<Vec<u8>>,
    agent_room: Vec<Progress>,
}

impl Model for Sim {
    ghost use Rattle.std.specs.Prelude.{min};
    ghost use Rattle.sab_sim.specs.Sim.{SimParts, IsKept, HasRoom, spare_of};

    ghost Value = { SimParts };

    ghost view = { λ s. record {
      plan = s.plan;
      moves = s.moves.items;
      journal = s.journal.items;
      blocks = s.machine.blocks;
      reserved = min (spare_of s.moves) (spare_of s.journal);
    } };

    ghost invariant = { λ s. IsKept s.plan s.moves.items s.journal.items s.machine
        × HasRoom s.plan s.block_room s.agent_room };
}

// The clauses cite the constant: so its number is held here.
const _: () = prove!(Sim::MAX_ENTRIES == 1_048_576);

impl Sim {
    /// How many entries a journal can have.
    pub const MAX_ENTRIES: usize = 1 << 20;

    /// A simulator of the plan's agents, none of which has moved: zero blocks, no waiter and an empty journal.
    ///
    /// After a refusal the plan is dropped.
    pub fn new(alloc: Global, plan: Plan) -> Result<Sim, AllocError>
        ensures plan { IfOk result (λ sim. sim.plan ≡ plan) }
        ensures moves { IfOk result (λ sim. sim.moves ≡ []) }
        ensures journal { IfOk result (λ sim. sim.journal ≡ []) }
        ensures blocks { IfOk result (λ sim. sim.blocks ≡ zero_blocks plan.lens) }
    {
        let machine = Machine::new(alloc, &plan)?;
        let block_room = Vec::with_capacity(alloc, plan.block_lens().len())?;
        let agent_room = Vec::with_capacity(alloc, plan.scripts().len())?;
        Ok(Sim {
            plan,
            moves: Vec::new(alloc),
            journal: Vec::new(alloc),
            machine,
            block_room,
            agent_room,
        })
    }

    /// Makes one move, which appends one entry to the journal.
    ///
    /// Refused are, in this order, a move that names no agent (NoAgent), any move once the journal has 2^20 entries
    /// (Full), and one for which there is no memory (OutOfMemory). A refusal changes nothing, and the simulator goes
    /// on.
    pub fn step(&mut self, m: Move) -> Result<(), SimFault>
        ensures plan { self.new.plan ≡ self.old.plan }
        ensures moves { OnOk result (self.new.moves ≡ self.old.moves ++ m ∷ []) }
        ensures journal { OnOk result ((e : Entry) × (self.new.journal ≡ self.old.journal ++ e ∷ [])) }
        ensures longer { OnOk result (length self.new.journal ≡ length self.old.journal + 1) }
        ensures err { OnErr result (self.new ≡ self.old) }

        ensures no_agent { length self.old.plan.scripts ≤ agent_of m → result ≡ Err NoAgent }
        ensures full { agent_of m < length self.old.plan.scripts → length self.old.journal ≡ MAX_ENTRIES
            → result ≡ Err Full }
        ensures memory { agent_of m < length self.old.plan.scripts → length self.old.journal < MAX_ENTRIES
            → IsOkUnless result OutOfMemory }

        ensures reserved { self.old.reserved ≤ self.new.reserved + 1 }
        ensures spare { agent_of m < length self.old.plan.scripts → length self.old.journal < MAX_ENTRIES
            → 0 < self.old.reserved → IsOk result }
    {
        if self.plan.scripts().len() <= m.agent() as usize {
            return Err(SimFault::NoAgent);
        }
        if Self::MAX_ENTRIES <= self.journal.len() {
            return Err(SimFault::Full);
        }
        if self.moves.try_reserve(1).is_err() || self.journal.try_reserve(1).is_err() {
            return Err(SimFault::OutOfMemory);
        }
        let entry = self.machine.turn(&self.plan, m);
        self.moves.push_reserved(m);
        self.journal.push_reserved(entry);
        Ok(())
    }

    /// Makes room for `n` more moves, or for as many as the journal can still have.
    ///
    /// It isn't refused where there is that room already. A refusal, as a success, leaves plan, moves, journal, blocks
    /// and lists as they were.
    pub fn reserve(&mut self, n: u32) -> Result<(), AllocError>
        ensures plan { self.new.plan ≡ self.old.plan }
        ensures moves { self.new.moves ≡ self.old.moves }
        ensures journal { self.new.journal ≡ self.old.journal }
        ensures blocks { self.new.blocks ≡ self.old.blocks }

        ensures room { OnOk result (min n (MAX_ENTRIES - length self.old.journal) ≤ self.new.reserved) }
        ensures kept { self.old.reserved ≤ self.new.reserved }
        ensures spare { min n (MAX_ENTRIES - length self.old.journal) ≤ self.old.reserved → IsOk result }
    {
        let left = Self::MAX_ENTRIES - self.journal.len();
        let more = left.min(n as usize);
        self.moves.try_reserve(more)?;
        self.journal.try_reserve(more)?;
        Ok(())
    }

    /// The plan.
    pub fn plan(&self) -> &Plan
        ensures { result.now ≡ self.now.plan }
    {
        &self.plan
    }

    /// The moves so far.
    pub fn moves(&self) -> &[Move]
        ensures { result.now ≡ self.now.moves }
    {
        self.moves.as_slice()
    }

    /// The blocks as the moves so far left them, in the order of the plan.
    pub fn blocks(&self) -> &[Block]
        ensures blocks { result.now ≡ self.now.blocks }
        ensures lens { map length result.now ≡ self.now.plan.lens }
    {
        self.machine.blocks()
    }

    /// The agents that wait at a place now, oldest first; none, where the plan has no such place.
    pub fn waiters_at(&self, place: Place) -> Waiters
        ensures waiters { AtEnd self.now.plan self.now.journal (λ S. result ≡ waiters place S.line) }
        ensures named { All (λ a. a < length self.now.plan.scripts) result }
        ensures most { length result ≤ MAX_AGENTS }
    {
        line_at(self.machine.agents(), place)
    }

    /// What each move so far did.
    pub fn journal(&self) -> &[Entry]
        ensures journal { result.now ≡ self.now.journal }
        ensures fits { FitsMoves self.now.plan self.now.moves self.now.journal self.now.blocks }
        ensures states { HasStates self.now.plan self.now.journal }
        ensures line { AtEnd self.now.plan self.now.journal (IsOfWaits self.now.plan self.now.journal) }
    {
        self.journal.as_slice()
    }

    /// The call of an agent that is to return next; none, where all its calls have returned, or there is no such agent.
    pub fn next_call(&self, agent: u32) -> Option<Call>
        ensures { result ≡ call_of self.now.plan agent (returned_of self.now.journal agent) }
    {
        let returned = find_agent(self.machine.agents(), agent)?.returned;
        call_at(&self.plan, agent, returned)
    }

    /// Whether an agent stands in the line of a place.
    pub fn is_waiting(&self, agent: u32) -> bool
        ensures { AtEnd self.now.plan self.now.journal (λ S. result ≡ stands S agent) }
    {
        match find_agent(self.machine.agents(), agent) {
            Some(agent) => agent.phase.is_waiting(),
            None => false,
        }
    }

    /// Whether an agent was woken and hasn't left its wait.
    pub fn is_woken(&self, agent: u32) -> bool
        ensures { AtEnd self.now.plan self.now.journal (λ S. result ≡ S.notified agent) }
    {
        match find_agent(self.machine.agents(), agent) {
            Some(agent) => agent.phase.is_woken(),
            None => false,
        }
    }

    /// The report of the moves so far.
    pub fn finish(self) -> Report
        ensures fits { Fits self.plan result }
        ensures one { IsOnly self.plan result }
        ensures schedule { result.schedule ≡ self.moves }
        ensures journal { result.journal ≡ self.journal }
        ensures blocks { result.blocks ≡ self.blocks }
    {
        let Sim {
            plan,
            moves,
            journal,
            machine,
            mut block_room,
            mut agent_room,
        } = self;
        report_progress(&mut agent_room, plan.scripts(), machine.agents());
        hand_over(&mut block_room, machine.into_blocks());
        Report {
            schedule: moves,
            journal,
            blocks: block_room,
            agents: agent_room,
        }
    }
}
