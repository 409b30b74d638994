//! Ends of limits, and refusals.

use sab_block::{Access, Kind};
use sab_sim::Move::{self, Step, TimeUp};
use sab_sim::{Call, Entry, Plan, Progress, Report, Sim, SimFault, What, Why, replay};
use std::alloc::{AllocError, Global};
use std::test::Fail;
use test_helpers::{expect, number, plan, steps, wait, whole};

/// How many entries a journal has at most.
const MOST: usize = 1_048_576;

/// One agent that has no calls, on an empty block.
fn idle(alloc: Global) -> Result<Plan, Fail> {
    plan(alloc, &[0], &[], &[(true, &[])])
}

/// Makes a move so often, and returns whether it was made each time.
fn repeats(sim: &mut Sim, m: Move, count: usize) -> bool {
    for _ in 0..count {
        if sim.step(m).is_err() {
            return false;
        }
    }
    true
}

/// Whether a journal is full, of an agent that has no calls and is stuck.
fn is_full(sim: &mut Sim, why: Why) -> bool {
    let is_refused = sim.step(Step(0)) == Err(SimFault::Full)
        && sim.step(TimeUp(1)) == Err(SimFault::NoAgent);
    let stuck = Entry {
        agent: 0,
        call: 0,
        what: What::Stuck(why),
    };
    for entry in sim.journal() {
        if *entry != stuck {
            return false;
        }
    }
    is_refused && sim.journal().len() == MOST
}

/// Whether a journal gets full by a move that is stuck, and then stays as it is, with so many entries reserved.
fn fills(mut sim: Sim, m: Move, why: Why, reserved: u32) -> bool {
    sim.reserve(reserved).is_ok()
        && repeats(&mut sim, m, MOST)
        && sim.reserve(reserved).is_ok()
        && is_full(&mut sim, why)
}

/// Moves that are stuck, and why.
const STUCK: [(Move, Why); 2] = [(Step(0), Why::Done), (TimeUp(0), Why::NotWaiting)];

/// With nothing reserved, with all that there can be, and with more.
#[test]
fn a_journal_ends_at_its_limit(rt: HostRuntime) -> Result<(), Fail> {
    for reserved in [0, 1_048_576, u32::MAX] {
        for &(m, why) in &STUCK {
            let sim = Sim::new(rt.alloc(), idle(rt.alloc())?)?;
            expect(fills(sim, m, why, reserved), "another end")?;
        }
    }
    Ok(())
}

/// The moves of an agent for an access, and for a wait whose time ends.
const ACCESS_AND_WAIT: [Move; 7] = [
    Step(0),
    Step(0),
    Step(0),
    Step(0),
    Step(0),
    TimeUp(0),
    Step(0),
];

/// Whether all calls of a report's agents returned.
fn has_returned(report: &Report) -> bool {
    for agent in &report.agents {
        if agent.returned != agent.total {
            return false;
        }
    }
    true
}

/// Whether an agent makes its moves for an access and a wait so often, behind so many of another one, with nothing
/// reserved.
fn goes_round(mut sim: Sim, others: usize, rounds: usize) -> bool {
    let mut are_made = repeats(&mut sim, TimeUp(1), others);
    for _ in 0..rounds {
        are_made = are_made && steps(&mut sim, &ACCESS_AND_WAIT);
    }
    are_made && has_returned(&sim.finish())
}

/// An agent that has 500 accesses and waits, and one that has no calls.
fn accesses_and_waits(alloc: Global) -> Result<Plan, Fail> {
    let access = Call::Access {
        view: 0,
        access: Access::Load { index: 0 },
    };
    let calls = [access, wait(0, 0, Some(5))].repeat(alloc, 500)?;
    let agents: [(bool, &[Call]); 2] = [(true, &calls), (true, &[])];
    plan(alloc, &[4], &[whole(Kind::Int32, 0, 4)?], &agents)
}

/// So each kind of move comes at each place at which the room is used up.
#[test]
fn each_kind_of_move_is_made_wherever_the_room_ends(rt: HostRuntime) -> Result<(), Fail> {
    for others in 0..7 {
        let sim = Sim::new(rt.alloc(), accesses_and_waits(rt.alloc())?)?;
        expect(goes_round(sim, others, 500), "a move that isn't made")?;
    }
    Ok(())
}

/// Why a replay of an agent that has no calls is refused.
fn refusal_of(alloc: Global, schedule: &[Move]) -> Result<Option<SimFault>, Fail> {
    Ok(replay(alloc, idle(alloc)?, schedule).err())
}

/// Whether a replay of an agent that has no calls makes each move of a schedule.
fn is_made(alloc: Global, schedule: &[Move]) -> Result<bool, Fail> {
    let report = replay(alloc, idle(alloc)?, schedule)?;
    Ok(report.journal.len() == schedule.len() && report.schedule.as_slice() == schedule)
}

/// So many steps of agent 0, and then another move.
fn steps_and(alloc: Global, steps: usize, last: Move) -> Result<Vec<Move>, AllocError> {
    let mut schedule: Vec<Move> = vec![in alloc; Step(0); steps]?;
    schedule.push(last)?;
    Ok(schedule)
}

/// How many steps are made, a move after them, and why that is refused.
const REFUSED: [(usize, Move, SimFault); 2] = [
    (MOST, Step(0), SimFault::Full),
    (MOST, Step(1), SimFault::NoAgent),
];

#[test]
fn a_replay_makes_as_many_moves_as_a_journal_has_entries(rt: HostRuntime) -> Result<(), Fail> {
    let alloc = rt.alloc();
    let made = is_made(alloc, &steps_and(alloc, MOST - 1, Step(0))?)?;
    expect(made, "a replay that isn't made")?;
    for &(steps, last, fault) in &REFUSED {
        let refusal = refusal_of(alloc, &steps_and(alloc, steps, last)?)?;
        expect(refusal == Some(fault), "another refusal")?;
    }
    let early = refusal_of(alloc, &[Step(0), Step(1), Step(0)])?;
    expect(
        early == Some(SimFault::NoAgent),
        "an early agent that isn't there",
    )
}

/// Whether a simulator refuses a move of another agent than its one, and goes on as if that move hadn't been.
fn goes_on(mut sim: Sim) -> bool {
    let refuses = sim.step(Step(1)) == Err(SimFault::NoAgent) && sim.journal().is_empty();
    let goes_on = repeats(&mut sim, Step(0), 1);
    let report = sim.finish();
    let none = Progress {
        returned: 0,
        total: 0,
    };
    refuses && goes_on && report.journal.len() == 1 && report.agents.as_slice() == [none].as_slice()
}

#[test]
fn a_refused_move_leaves_the_simulator_as_it_was(rt: HostRuntime) -> Result<(), Fail> {
    let sim = Sim::new(rt.alloc(), idle(rt.alloc())?)?;
    expect(goes_on(sim), "a refused move changed something")
}

/// Whether the last byte of a longest block is 7, and each other is 0.
fn is_marked(block: &[u8]) -> bool {
    let Some((last, others)) = block.split_last() else {
        return false;
    };
    for byte in others {
        if *byte != 0 {
            return false;
        }
    }
    *last == 7 && others.len() == 65_535
}

/// An agent that stores 7 in the last byte of each of four blocks of the greatest length.
fn longest(alloc: Global) -> Result<Plan, Fail> {
    let mut calls = Vec::new(alloc);
    let mut views = Vec::new(alloc);
    for view in 0..4 {
        let access = Access::Store {
            index: 65_535,
            value: number(7),
        };
        calls.push(Call::Access { view, access })?;
        views.push(whole(Kind::Uint8, view, 65_536)?)?;
    }
    plan(alloc, &[65_536; 4], &views, &[(true, &calls)])
}

/// Whether twelve steps mark four blocks.
fn marks(mut sim: Sim) -> bool {
    let is_stepped = repeats(&mut sim, Step(0), 12);
    let report = sim.finish();
    for block in &report.blocks {
        if !is_marked(block) {
            return false;
        }
    }
    is_stepped && report.blocks.len() == 4
}

#[test]
fn four_blocks_of_the_greatest_length_are_kept(rt: HostRuntime) -> Result<(), Fail> {
    let made = longest(rt.alloc())?;
    let sim = Sim::new(rt.alloc(), made.copy(rt.alloc())?)?;
    let is_kept = *sim.plan() == made;
    expect(is_kept && marks(sim), "another plan or other bytes")
}
