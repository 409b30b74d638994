//! A simulator that explains its moves.

ghost use Rattle.std.specs.Prelude.{◌≡◌, ◌+◌, ◌-◌, ◌^◌, ◌<◌, ◌≤◌, ◌++◌, ◌∷◌, [], length, min, Err, OnErr, OnOk, IfOk};
ghost use Rattle.std.specs.Prelude.{IfSome, IfNone, IsOk, IsOkUnless, None};
ghost use Rattle.sab_sim.specs.declared.sim_fault.SimFault.TheVariants.{NoAgent, Full, OutOfMemory};
ghost use Rattle.sab_plan.specs.declared.plan.TheConstants.Plan.{MAX_AGENTS};
ghost use Rattle.sab_plan.specs.Schedule.{agent_of};
ghost use Rattle.sab_object.specs.Object.{zero_blocks};
ghost use Rattle.sab_plan.specs.Plan.{call_of};
ghost use Rattle.sab_plan.specs.Journal.{returned_of};
ghost use Rattle.sab_sim.specs.Shown.{AtEnd};
ghost use Rattle.sab_sim.specs.Fits.{Fits, IsOnly};
ghost use Rattle.sab_replay.specs.Explain.Explainer.{AreLast};
ghost use Rattle.sab_replay.specs.Explain.Fact.{IsFact, IsOnlyFact, NamesWaker};
ghost use Rattle.sab_replay.specs.Explain.Standing as standings;
ghost use Rattle.sab_replay.specs.Explain.Standing.{IsAt, IsStanding, IsOnlyStanding, what_at};
ghost use Rattle.sab_sim.specs.declared.sim.TheConstants.Sim.{MAX_ENTRIES};

use crate::explain::before::{Before, before_move, conclude, place_named};
use crate::explain::notes::{note_last, note_woken};
use crate::explain::standing::{by_last, is_notified};
use sab_plan::{At, Explained, Fact, Move, Place, Plan, Report, Standing};
use sab_sim::{Sim, SimFault};
use std::alloc::{AllocError, Global};
use std::marker::Model;

/// A simulator that returns the fact of each entry.
#[derive(Drop)]
pub struct Explainer {
    sim: Sim,
    // Of each agent, the entry that woke it last.
    wakers: [u32; Plan::MAX_AGENTS],
    // Of each agent, its last entry that had an effect.
    last: [Option<u32>; Plan::MAX_AGENTS],
}

impl Model for Explainer {
    ghost use Rattle.sab_sim.specs.Sim.{SimParts};
    ghost use Rattle.sab_replay.specs.Explain.Explainer.{AreWakers, AreLast};

    ghost Value = { SimParts };

    ghost view = { λ x. x.sim };

    ghost invariant = { λ x. AreWakers x.sim.plan x.sim.journal x.wakers × AreLast x.sim.journal x.last };
}

impl Explainer {
    /// An explainer of the plan's agents, none of which has moved: zero blocks, no waiter and an empty journal.
    ///
    /// After a refusal the plan is dropped.
    pub fn new(alloc: Global, plan: Plan) -> Result<Explainer, AllocError>
        ensures plan { IfOk result (λ explainer. explainer.plan ≡ plan) }
        ensures moves { IfOk result (λ explainer. explainer.moves ≡ []) }
        ensures journal { IfOk result (λ explainer. explainer.journal ≡ []) }
        ensures blocks { IfOk result (λ explainer. explainer.blocks ≡ zero_blocks plan.lens) }
    {
        Ok(Explainer {
            sim: Sim::new(alloc, plan)?,
            wakers: [0; Plan::MAX_AGENTS],
            last: [None; Plan::MAX_AGENTS],
        })
    }

    /// Makes one move, as `Sim::step` does, and returns its entry and the fact of it.
    ///
    /// Refused are, in this order, a move that names no agent (NoAgent), any move once the journal has 2^20 entries
    /// (Full), and one for which there is no memory (OutOfMemory). A refusal changes nothing, and the explainer goes
    /// on.
    pub fn step(&mut self, m: Move) -> Result<Explained, SimFault>
        ensures plan { self.new.plan ≡ self.old.plan }
        ensures moves { OnOk result (self.new.moves ≡ self.old.moves ++ m ∷ []) }
        ensures journal { IfOk result (λ explained. self.new.journal ≡ self.old.journal ++ explained.entry ∷ []) }
        ensures fact { IfOk result (λ explained. IsFact self.old.plan self.old.journal explained.entry explained.fact) }
        ensures only { IfOk result (λ explained. IsOnlyFact self.old.plan self.old.journal explained.entry
            explained.fact) }
        ensures waker { IfOk result (λ explained. NamesWaker self.old.plan self.old.journal explained.entry
            explained.fact.found) }
        ensures longer { OnOk result (length self.new.journal ≡ length self.old.journal + 1) }
        ensures err { OnErr result (self.new ≡ self.old) }

        ensures no_agent { length self.old.plan.scripts ≤ agent_of m → result ≡ Err NoAgent }
        ensures full { agent_of m < length self.old.plan.scripts → length self.old.journal ≡ MAX_ENTRIES
            → result ≡ Err Full }
        ensures memory { agent_of m < length self.old.plan.scripts → length self.old.journal < MAX_ENTRIES
            → IsOkUnless result OutOfMemory }

        ensures reserved { self.old.reserved ≤ self.new.reserved + 1 }
        ensures spare { agent_of m < length self.old.plan.scripts → length self.old.journal < MAX_ENTRIES
            → 0 < self.old.reserved → IsOk result }
    {
        let agent = m.agent();
        if self.sim.plan().scripts().len() <= agent as usize {
            return Err(SimFault::NoAgent);
        }
        let before = before_move(&self.sim, agent);
        let position = self.sim.journal().len();
        self.sim.step(m)?;
        let entry = self.sim.journal()[position];
        let Before {
            call,
            place,
            sight,
            failing,
            woken,
        } = before;
        let waker = woken.then_some(self.wakers[agent as usize]);
        let found = conclude(&self.sim, entry.what, sight, waker, failing);
        let since = self.last[agent as usize];
        note_woken(&mut self.wakers, found.woken(), position as u32);
        note_last(&mut self.last, agent, entry.what, position as u32);
        let fact = Fact {
            call,
            place,
            since,
            found,
        };
        Ok(Explained { entry, fact })
    }

    /// Makes room for `n` more moves, or for as many as the journal can still have.
    ///
    /// It isn't refused where there is that room already. A refusal, as a success, leaves plan, moves, journal, blocks
    /// and lists as they were.
    pub fn reserve(&mut self, n: u32) -> Result<(), AllocError>
        ensures plan { self.new.plan ≡ self.old.plan }
        ensures moves { self.new.moves ≡ self.old.moves }
        ensures journal { self.new.journal ≡ self.old.journal }
        ensures blocks { self.new.blocks ≡ self.old.blocks }

        ensures room { OnOk result (min n (MAX_ENTRIES - length self.old.journal) ≤ self.new.reserved) }
        ensures kept { self.old.reserved ≤ self.new.reserved }
        ensures spare { min n (MAX_ENTRIES - length self.old.journal) ≤ self.old.reserved → IsOk result }
    {
        self.sim.reserve(n)
    }

    /// The simulator, as the moves so far left it.
    pub fn sim(&self) -> &Sim
        ensures { result.now ≡ self.now }
    {
        &self.sim
    }

    /// For each agent, the position of its last entry so far that had an effect; none, where it has no such entry.
    pub fn last_positions(&self) -> [Option<u32>; Plan::MAX_AGENTS]
        ensures { AreLast self.now.journal result }
    {
        self.last
    }

    /// Where an agent stands, some of whose calls haven't returned; none, where all have, or there is no such agent.
    pub fn standing(&self, agent: u32) -> Option<Standing>
        ensures none { IfNone result (call_of self.now.plan agent (returned_of self.now.journal agent) ≡ None) }
        ensures standing { IfSome result (λ standing. IsStanding self.now.plan self.now.journal agent standing) }
        ensures only { IfSome result (λ standing. IsOnlyStanding self.now.plan self.now.journal agent standing) }
    {
        let plan = self.sim.plan();
        let call = self.sim.next_call(agent)?;
        if plan.scripts().len() <= agent as usize {
            return None;
        }
        let place = place_named(plan, Some(call));
        let since = self.last[agent as usize];
        let last = by_last(self.sim.journal(), since);
        Some(Standing {
            call,
            place,
            since,
            at: self.at(agent, place, since, last),
        })
    }

    /// How far an agent is with the call of this place; where it neither waits nor was woken, as far as it last came.
    fn at(&self, agent: u32, place: Option<Place>, since: Option<u32>, last: At) -> At
        requires named { agent < length self.now.plan.scripts }
        requires few { agent < MAX_AGENTS }
        requires last { last ≡ standings.by_last (what_at self.now.journal since) }
        ensures { AtEnd self.now.plan self.now.journal
            (λ S. IsAt self.now.plan self.now.journal S agent place since result) }
    {
        if self.sim.is_waiting(agent) {
            let notified = is_notified(self.sim.plan(), self.sim.journal(), since, place);
            return At::Waits { notified };
        }
        if self.sim.is_woken(agent) {
            let entry = self.wakers[agent as usize];
            return At::Woken { entry };
        }
        last
    }

    /// The report of the moves so far.
    pub fn finish(self) -> Report
        ensures fits { Fits self.plan result }
        ensures one { IsOnly self.plan result }
        ensures schedule { result.schedule ≡ self.moves }
        ensures journal { result.journal ≡ self.journal }
        ensures blocks { result.blocks ≡ self.blocks }
    {
        let Explainer {
            sim,
            wakers: _,
            last: _,
        } = self;
        sim.finish()
    }
}
