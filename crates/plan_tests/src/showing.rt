//! What a simulator shows between its moves.

use sab_block::Kind;
use sab_sim::Move::Step;
use sab_sim::{Place, Plan, Sim};
use std::alloc::Global;
use std::test::Fail;
use test_helpers::{expect, notify, plan, wait, whole};

/// Three agents that wait at the first byte of block 1, and one that wakes two of them.
fn waiters(alloc: Global) -> Result<Plan, Fail> {
    let waits = [wait(0, 0, None)];
    let wakes = [notify(0, 0, Some(2))];
    let agents = [
        (true, waits.as_slice()),
        (true, waits.as_slice()),
        (true, waits.as_slice()),
        (true, wakes.as_slice()),
    ];
    plan(alloc, &[8, 8], &[whole(Kind::Int32, 1, 8)?], &agents)
}

/// Makes a step of each of these agents, and returns whether just `waiting` wait at the first byte of block 1 then.
fn shows(sim: &mut Sim, agents: &[u32], waiting: &[u32]) -> bool {
    let place = Place { block: 1, byte: 0 };
    let other_block = Place { block: 0, byte: 0 };
    let other_byte = Place { block: 1, byte: 4 };
    for agent in agents {
        if sim.step(Step(*agent)).is_err() {
            return false;
        }
    }
    sim.waiters_at(place).agents() == waiting
        && sim.waiters_at(other_block).agents().is_empty()
        && sim.waiters_at(other_byte).agents().is_empty()
}

/// Whether agents 2, 0 and 1 come to wait in this order, which none does before its call has acted, and agent 3 wakes
/// two of them.
fn shows_each(mut sim: Sim) -> bool {
    shows(&mut sim, &[0, 1, 2], &[])
        && shows(&mut sim, &[2, 0, 1], &[2, 0, 1])
        && shows(&mut sim, &[3, 3], &[1])
}

#[test]
fn who_waits_is_shown_oldest_first(rt: HostRuntime) -> Result<(), Fail> {
    let sim = Sim::new(rt.alloc(), waiters(rt.alloc())?)?;
    expect(shows_each(sim), "others who wait")
}
