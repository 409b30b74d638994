//! Where everything stands, and what one move does to it.

ghost use Rattle.std.specs.Prelude.{◌≡◌, ◌<◌, ◌≤◌, length, true, IfOk};
ghost use Rattle.sab_plan.specs.declared.schedule.Move.TheVariants.{Step, TimeUp};
ghost use Rattle.sab_plan.specs.declared.entry.What.TheVariants.{Acted, Enlisted};
ghost use Rattle.sab_sim.specs.declared.agent.Phase.TheVariants.{Answered};
ghost use Rattle.sab_plan.specs.Schedule.{agent_of};
ghost use Rattle.sab_plan.specs.Journal.{answers_move};
ghost use Rattle.sab_sim.specs.Agent.{agent_at};
ghost use Rattle.sab_sim.specs.Machine.{IsReady, IsBegun, opening_machine, with_agent, with_phase, enlisted};
ghost use Rattle.sab_sim.specs.Turn.{Turns, entry_of};
ghost use Rattle.sab_sim.specs.declared.sim.TheConstants.Sim.{MAX_ENTRIES};

use crate::agent::{Agent, Phase};
use crate::line::wake;
use crate::lookup::{call_at, can_block, is_timed, view_at};
use sab_block::Block;
use sab_object::{act_access, find_notify, find_wait};
use sab_plan::{Answer, Call, Entry, Move, Place, Plan, What, Why};
use std::alloc::{AllocError, Global};
use std::marker::Model;

/// All that moves change: the blocks, the agents, and the ticket of the next agent that joins a line.
#[derive(Drop)]
pub struct Machine {
    blocks: Vec<Block>,
    agents: Vec<Agent>,
    next_ticket: u32,
}

impl Model for Machine {
    ghost use Rattle.sab_sim.specs.Machine.{MachineParts};

    ghost Value = { MachineParts };

    ghost view = { λ m. record { blocks = m.blocks.items; agents = m.agents.items; next_ticket = m.next_ticket } };
}

impl Machine {
    /// Zero blocks of a plan's lengths, and its agents, none of which has moved.
    pub fn new(alloc: Global, plan: &Plan) -> Result<Machine, AllocError>
        ensures { IfOk result (λ machine. machine ≡ opening_machine plan.now) }
    {
        let mut blocks = Vec::with_capacity(alloc, plan.block_lens().len())?;
        for &len in plan.block_lens() {
            blocks.push_reserved(Block::new(alloc, len)?);
        }
        let newcomer = Agent {
            returned: 0,
            phase: Phase::Ready,
        };
        let agents = vec![in alloc; newcomer; plan.scripts().len()]?;
        Ok(Machine {
            blocks,
            agents,
            next_ticket: 0,
        })
    }

    /// The blocks.
    pub fn blocks(&self) -> &[Block]
        ensures { result.now ≡ self.now.blocks }
    {
        self.blocks.as_slice()
    }

    /// Where each agent stands.
    pub fn agents(&self) -> &[Agent]
        ensures { result.now ≡ self.now.agents }
    {
        self.agents.as_slice()
    }

    /// The blocks alone.
    pub fn into_blocks(self) -> Vec<Block>
        ensures { result.items ≡ self.blocks }
    {
        self.blocks
    }

    /// Makes one move, and returns what it did.
    pub fn turn(&mut self, plan: &Plan, m: Move) -> Entry
        requires { IsReady plan.now self.old (agent_of m) }
        ensures agent { result.agent ≡ agent_of m }
        ensures kind { answers_move m result.what ≡ true }
        ensures turns { Turns plan.now self.old result self.new }
    {
        let agent = m.agent();
        let call = self.agent(agent).returned;
        let what = match m {
            Move::Step(a) => self.step(plan, a),
            Move::TimeUp(a) => self.time_up(plan, a),
        };
        Entry { agent, call, what }
    }

    /// Makes one step of an agent.
    fn step(&mut self, plan: &Plan, a: u32) -> What
        requires { IsReady plan.now self.old a }
        ensures kind { answers_move (Step a) result ≡ true }
        ensures turns { Turns plan.now self.old (entry_of self.old a result) self.new }
    {
        let Agent { returned, phase } = self.agent(a);
        match phase {
            Phase::Ready => {
                if call_at(plan, a, returned).is_none() {
                    return What::Stuck(Why::Done);
                }
                self.put(a, returned, Phase::Begun);
                What::Began
            }
            Phase::Begun => self.perform(plan, a),
            Phase::Waiting { .. } => What::Stuck(Why::Waiting),
            Phase::Woken => {
                self.put(a, returned, Phase::Answered(Answer::Woken));
                What::Left(Answer::Woken)
            }
            Phase::Answered(answer) => {
                self.put(a, returned + 1, Phase::Ready);
                What::Returned(answer)
            }
        }
    }

    /// Ends an agent's wait, if it waits with a timeout.
    fn time_up(&mut self, plan: &Plan, a: u32) -> What
        requires { IsReady plan.now self.old a }
        ensures kind { answers_move (TimeUp a) result ≡ true }
        ensures turns { Turns plan.now self.old (entry_of self.old a result) self.new }
    {
        let Agent { returned, phase } = self.agent(a);
        if !phase.is_waiting() {
            return What::Stuck(Why::NotWaiting);
        }
        if !is_timed(plan, a, returned) {
            return What::Stuck(Why::Endless);
        }
        self.put(a, returned, Phase::Answered(Answer::TimedOut));
        What::Left(Answer::TimedOut)
    }

    /// Makes the act of a call that has begun.
    fn perform(&mut self, plan: &Plan, a: u32) -> What
        requires ready { IsReady plan.now self.old a }
        requires begun { IsBegun self.old a }
        ensures kind { answers_move (Step a) result ≡ true }
        ensures turns { Turns plan.now self.old (entry_of self.old a result) self.new }
    {
        let returned = self.agent(a).returned;
        match call_at(plan, a, returned) {
            Some(Call::Access { view, access }) => {
                let answer = act_access(&mut self.blocks, &view_at(plan, view), &access);
                self.answer(a, answer)
            }
            Some(
                Call::Wait {
                    view,
                    index,
                    value,
                    ..
                },
            ) => match find_wait(
                self.blocks(),
                &view_at(plan, view),
                index,
                value,
                can_block(plan, a),
            ) {
                Ok(Some(place)) => self.enlist(a, place),
                Ok(None) => self.answer(a, Answer::NotEqual),
                Err(thrown) => self.answer(a, Answer::Threw(thrown)),
            },
            Some(Call::Notify { view, index, count }) => match find_notify(
                &view_at(plan, view),
                index,
            ) {
                Ok(place) => {
                    let woken = wake(&mut self.agents, place, count);
                    self.answer(a, Answer::Count(woken))
                }
                Err(thrown) => self.answer(a, Answer::Threw(thrown)),
            },
            None => unreachable!(),
        }
    }

    /// Gives an agent's call its answer.
    fn answer(&mut self, a: u32, answer: Answer) -> What
        requires { a < length self.old.agents }
        ensures what { result ≡ Acted answer }
        ensures machine { self.new ≡ with_phase self.old a (Answered answer) }
    {
        let returned = self.agent(a).returned;
        self.put(a, returned, Phase::Answered(answer));
        What::Acted(answer)
    }

    /// Puts an agent at the end of the line.
    fn enlist(&mut self, a: u32, place: Place) -> What
        requires named { a < length self.old.agents }
        requires few_tickets { self.old.next_ticket ≤ MAX_ENTRIES }
        ensures what { result ≡ Enlisted }
        ensures machine { self.new ≡ enlisted self.old a place }
    {
        let returned = self.agent(a).returned;
        let ticket = self.next_ticket;
        self.next_ticket += 1;
        self.put(a, returned, Phase::Waiting { place, ticket });
        What::Enlisted
    }

    /// Where an agent stands.
    fn agent(&self, a: u32) -> Agent
        requires { a < length self.now.agents }
        ensures { result ≡ agent_at self.now.agents a }
    {
        self.agents[a as usize]
    }

    /// Puts an agent where it stands now.
    fn put(&mut self, a: u32, returned: u32, phase: Phase)
        requires { a < length self.old.agents }
        ensures { self.new ≡ with_agent self.old a (record { returned = returned; phase = phase }) }
    {
        self.agents[a as usize] = Agent { returned, phase };
    }
}
