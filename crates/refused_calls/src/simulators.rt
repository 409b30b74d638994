//! Blocks, plans and simulators.

use crate::found::{Found, Refusal, Unmade};
use crate::plans::{OLDEST, plan_of};
use crate::texts::is_report;
use sab_block::Block;
use sab_sim::Answer::{Count, Woken};
use sab_sim::Move::{self, Step};
use sab_sim::What::{Acted, Began, Enlisted, Left, Returned, Stuck};
use sab_sim::{Entry, Plan, Sim, SimFault, What, Why};
use std::alloc::Global;

/// A block of 4 bytes is made.
pub fn block(alloc: Global) -> Found {
    match Block::new(alloc, 4) {
        Ok(block) => Found::answer(block.bytes() == [0; 4].as_slice()),
        Err(_) => Found::Refused(Refusal::AllocError),
    }
}

/// A plan is copied.
pub fn plan_copy(alloc: Global) -> Result<Found, Unmade> {
    let plan = plan_of(alloc, OLDEST)?;
    let same = plan_of(alloc, OLDEST)?;
    Ok(match plan.copy(alloc) {
        Ok(copy) => Found::answer(copy == same && plan == same),
        Err(_) => Found::refused(Refusal::AllocError, plan == same),
    })
}

/// A simulator is made of a plan.
pub fn sim_new(alloc: Global) -> Result<Found, Unmade> {
    let plan = plan_of(alloc, OLDEST)?;
    let same = plan_of(alloc, OLDEST)?;
    Ok(match Sim::new(alloc, plan) {
        Ok(sim) => Found::answer(*sim.plan() == same && sim.journal().is_empty()),
        Err(_) => Found::Refused(Refusal::AllocError),
    })
}

/// The moves that are made of the plan `OLDEST`.
const MOVES: [Move; 10] = [
    Step(0),
    Step(0),
    Step(1),
    Step(1),
    Step(2),
    Step(2),
    Step(0),
    Step(1),
    Step(2),
    Step(0),
];

/// The agent, the call and what the entry of each move has to report.
const JOURNAL: [(u32, u32, What); 10] = [
    (0, 0, Began),
    (0, 0, Enlisted),
    (1, 0, Began),
    (1, 0, Enlisted),
    (2, 0, Began),
    (2, 0, Acted(Count(1))),
    (0, 0, Left(Woken)),
    (1, 0, Stuck(Why::Waiting)),
    (2, 0, Returned(Count(1))),
    (0, 0, Returned(Woken)),
];

/// The text of their report.
const REPORT: &str = "\
0 0 0 begin
1 0 0 wait
2 1 0 begin
3 1 0 wait
4 2 0 begin
5 2 0 act 1
6 0 0 leave ok
7 1 0 stuck waiting
8 2 0 return 1
9 0 0 return ok
block 0 00000000
agent 0 1 of 1
agent 1 0 of 1
agent 2 1 of 1
";

/// Whether this is the journal after so many moves.
fn is_journal(journal: &[Entry], made: usize) -> bool {
    for (entry, (agent, call, what)) in journal.iter().zip(JOURNAL.iter()) {
        if entry.agent != *agent || entry.call != *call || entry.what != *what {
            return false;
        }
    }
    journal.len() == made && made <= MOVES.len()
}

/// A simulator, and the plan that it has.
#[derive(Drop)]
struct Trial {
    sim: Sim,
    plan: Plan,
}

impl Trial {
    fn new(alloc: Global) -> Result<Trial, Unmade> {
        let plan = plan_of(alloc, OLDEST)?;
        Ok(Trial {
            sim: Sim::new(alloc, plan_of(alloc, OLDEST)?)?,
            plan,
        })
    }

    /// Whether the plan and the journal are those after so many moves.
    fn stands(&self, made: usize) -> bool {
        *self.sim.plan() == self.plan && is_journal(self.sim.journal(), made)
    }

    /// Reserves ten steps after so many moves, once more if it is refused.
    fn reserve(&mut self, made: usize) -> Found {
        if self.sim.reserve(10).is_ok() {
            return Found::answer(self.stands(made));
        }
        let stands = self.stands(made);
        if self.sim.reserve(10).is_err() {
            return Found::Wrong("once more it is refused again");
        }
        Found::refused(Refusal::AllocError, stands && self.stands(made))
    }

    /// Makes a move after so many others, once more if it is refused.
    fn step(&mut self, made: usize, m: Move) -> Found {
        let after = made.saturating_add(1);
        match self.sim.step(m) {
            Ok(()) => Found::answer(self.stands(after)),
            Err(SimFault::OutOfMemory) => {
                let stands = self.stands(made);
                if self.sim.step(m).is_err() {
                    return Found::Wrong("once more it is refused again");
                }
                Found::refused(Refusal::OutOfMemory, stands && self.stands(after))
            }
            Err(SimFault::NoAgent | SimFault::Full) => Found::Wrong("another fault"),
        }
    }

    /// Makes the moves from one position up to another. It is refused where a move was.
    fn steps(&mut self, from: usize, to: usize) -> Found {
        let mut found = Found::Answered;
        for (made, m) in MOVES.iter().enumerate() {
            if from <= made && made < to {
                match self.step(made, *m) {
                    Found::Answered => {}
                    Found::Wrong(what) => return Found::Wrong(what),
                    refused => found = refused,
                }
            }
        }
        found
    }

    /// What was found, if the report of all moves is right too.
    fn at_the_end(self, found: Found) -> Found {
        let Trial { sim, plan: _ } = self;
        let report = sim.finish();
        if report.schedule.as_slice() == MOVES.as_slice() && is_report(&report, REPORT) {
            found
        } else {
            Found::Wrong("another report")
        }
    }
}

/// Ten steps are reserved after so many moves; then the rest of the moves is made.
pub fn sim_reserve(alloc: Global, made: usize) -> Result<Found, Unmade> {
    let mut trial = Trial::new(alloc)?;
    match trial.steps(0, made) {
        Found::Answered => {}
        Found::Wrong(what) => return Err(Unmade::Wrong(what)),
        _ => return Err(Unmade::OutOfMemory),
    }
    let reserved = trial.reserve(made);
    Ok(match (reserved, trial.steps(made, 10)) {
        (Found::Wrong(what), _) | (_, Found::Wrong(what)) => Found::Wrong(what),
        (_, Found::Answered) => trial.at_the_end(reserved),
        _ => Found::Wrong("a reserved step is refused"),
    })
}

/// Ten moves are made with none reserved.
pub fn sim_step(alloc: Global) -> Result<Found, Unmade> {
    let mut trial = Trial::new(alloc)?;
    Ok(match trial.steps(0, 10) {
        Found::Wrong(what) => Found::Wrong(what),
        found => trial.at_the_end(found),
    })
}

/// Ten moves are made that were reserved, and their report. It also returns whether a further allocation is refused.
pub fn reserved_steps(alloc: Global) -> Result<Found, Unmade> {
    let mut trial = Trial::new(alloc)?;
    trial.sim.reserve(10)?;
    let found = match trial.steps(0, 10) {
        Found::Answered => trial.at_the_end(Found::Answered),
        Found::Wrong(what) => return Ok(Found::Wrong(what)),
        _ => return Ok(Found::Wrong("a reserved step is refused")),
    };
    Ok(match (found, Block::new(alloc, 4)) {
        (Found::Answered, Err(_)) => Found::AnsweredAtLast,
        _ => found,
    })
}
