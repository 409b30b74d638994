//! The moves of a script, and what comes out of a ring that is fed with them.

ghost use Rattle.std.specs.Prelude.{◌≡◌, ◌≤◌, length, IfOk};
ghost use Rattle.sab_sim.specs.declared.sim.TheConstants.Sim.{MAX_ENTRIES};

use rtrb::RingBuffer;
use sab_block::Access;
use sab_race::{Gate, NoGate, feed, moves};
use sab_sim::Move::{self, Step, TimeUp};
use sab_sim::{Call, Script};
use std::alloc::{AllocError, Global};
use std::test::Fail;
use test_helpers::{expect, wait};

/// The moves of agent 2 for a wait that is stepped at twice, and for a load.
const WAIT_AND_LOAD: [Move; 10] = [
    Step(2),
    Step(2),
    Step(2),
    Step(2),
    TimeUp(2),
    Step(2),
    Step(2),
    Step(2),
    Step(2),
    Step(2),
];

/// What comes out of a ring that is fed with moves: these, in order.
fn feed_through<G: Gate>(
    alloc: Global,
    agent: u32,
    moves: &[Move],
    gate: &G,
) -> Result<Vec<Move>, AllocError>
    requires { length moves.now ≤ MAX_ENTRIES }
    ensures { IfOk result (λ received. received.items ≡ moves.now) }
{
    let (mut producer, mut consumer) = RingBuffer::new(alloc, moves.len())?;
    feed(&mut producer, agent, moves, gate);
    let count = consumer.slots_beside(&mut producer);
    let mut received = Vec::with_capacity(alloc, count)?;
    for _ in 0..count {
        received.push(consumer.pop_known())?;
    }
    Ok(received)
}

#[test]
fn a_wait_is_stepped_at_until_its_time_is_up(rt: HostRuntime) -> Result<(), Fail> {
    let alloc = rt.alloc();
    let load = Call::Access {
        view: 0,
        access: Access::Load { index: 0 },
    };
    let script = Script {
        can_block: true,
        calls: vec![in alloc; wait(0, 0, None), load]?,
    };
    let made = moves(alloc, &script, 2, 2)?;
    expect(made.as_slice() == WAIT_AND_LOAD.as_slice(), "other moves")
}

#[test]
fn a_ring_gives_what_it_was_fed_in_order(rt: HostRuntime) -> Result<(), Fail> {
    let (mut producer, mut consumer) = RingBuffer::new(rt.alloc(), 10)?;
    feed(&mut producer, 2, &WAIT_AND_LOAD, &NoGate);
    let mut are_given = true;
    for m in &WAIT_AND_LOAD {
        are_given = consumer.pop().ok() == Some(*m) && are_given;
    }
    let is_empty = consumer.pop().is_err();
    expect(are_given && is_empty, "other moves")
}

#[test]
fn a_caller_of_feed_knows_what_comes_out(rt: HostRuntime) -> Result<(), Fail> {
    let received = feed_through(rt.alloc(), 2, &WAIT_AND_LOAD, &NoGate)?;
    expect(
        received.as_slice() == WAIT_AND_LOAD.as_slice(),
        "other moves",
    )
}
