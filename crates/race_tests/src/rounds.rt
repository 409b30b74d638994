//! Rings that their owner goes round.

use crate::adders::{moves_of, race_adders};
use crate::order::Order;
use crate::slow::Slow;
use crate::turning::{turn, turn_at_most, turn_until};
use crate::watching::Hold;
use crate::way::Way;
use std::alloc::{AllocError, Global};
use std::sync::Wait;
use std::sync::atomic::{AtomicU32, Ordering};
use std::test::Fail;
use std::thread::Threads;
use test_helpers::expect;

/// How often each of sixteen agents adds 1.
const COUNTS: [u32; 16] = [34, 1, 0, 2, 30, 1, 3, 22, 0, 4, 7, 1, 1, 25, 2, 5];

/// Those of them that have moves.
const WITH_MOVES: [u32; 14] = [0, 1, 3, 4, 5, 6, 7, 9, 10, 11, 12, 13, 14, 15];

/// Adds the agents of one round of an owner: those that have a move `k`.
fn add_round(agents: &mut Vec<u32>, moves: &[u32], k: u32) -> Result<(), AllocError> {
    for (agent, count) in (0..16).zip(moves) {
        if k < *count {
            agents.push(agent)?;
        }
    }
    Ok(())
}

/// The order in which an owner makes the moves of agents that add so often, where it goes round full rings: one of each
/// ring that has one. So many of each agent's last moves are left out.
fn rounds(alloc: Global, counts: &[u32], left_out: u32) -> Result<Vec<u32>, AllocError> {
    let moves = moves_of(alloc, counts, left_out)?;
    let mut agents = Vec::new(alloc);
    for k in 0..102 {
        add_round(&mut agents, &moves, k)?;
    }
    Ok(agents)
}

/// By rings that their owner goes round: by no seed, and by seed 0.
const WITHOUT_PATIENCE: [Way; 2] = [
    Way::Rings { patience: 0 },
    Way::Mixed {
        seed: 0,
        patience: 0,
    },
];

#[test]
fn an_owner_without_patience_goes_round_full_rings(rt: HostRuntime) -> Result<(), Fail> {
    let order = Order::new(rounds(rt.alloc(), &COUNTS, 0)?);
    let slow = Slow {
        agent: None,
        turns: 50,
    };
    for way in &WITHOUT_PATIENCE {
        let (report, _) = race_adders(&rt, rt.alloc(), *way, &COUNTS, slow)?;
        expect(order.is_of(&report.schedule), "another order")?;
    }
    Ok(())
}

/// Holds the owner back once it made the first move, until each ring has all its moves but the last. The last ones come
/// one by one once those were made.
#[derive(Drop)]
struct Filling {
    order: Order,
    /// How many agents have moves, and how many of them have come to their last one.
    agents: u32,
    at_last: AtomicU32,
}

impl Hold for Filling {
    fn before(&self, agent: u32, k: u32) -> bool {
        let Some(place) = self.order.place(agent, k) else {
            return false;
        };
        if self.order.place(agent, k.saturating_add(1)).is_some() {
            return self.order.wait(place.min(1));
        }
        self.at_last.fetch_add(1, Ordering::SeqCst);
        self.order.wait(place)
    }

    fn applied(&self, _agent: u32, _k: u32) -> bool {
        self.order.add() > 0 || turn_until(&self.at_last, self.agents)
    }
}

/// Nothing is filled yet.
fn unfilled(alloc: Global) -> Result<Filling, AllocError> {
    let mut agents = rounds(alloc, &COUNTS, 1)?;
    agents.extend_from_slice(&WITH_MOVES)?;
    Ok(Filling {
        order: Order::new(agents),
        agents: 14,
        at_last: AtomicU32::new(0),
    })
}

#[test]
fn a_patient_owner_goes_round_full_rings(rt: HostRuntime) -> Result<(), Fail> {
    let filling = unfilled(rt.alloc())?;
    let (report, filling) = race_adders(&rt, rt.alloc(), Way::PATIENT, &COUNTS, filling)?;
    expect(filling.order.is_of(&report.schedule), "another order")
}

#[test]
fn a_ring_is_read_again_as_long_as_moves_come(rt: HostRuntime) -> Result<(), Fail> {
    let one_by_one = Order::new(rounds(rt.alloc(), &[34], 0)?);
    race_adders(&rt, rt.alloc(), Way::PATIENT, &[34], one_by_one)?;
    Ok(())
}

/// Holds an agent back for long before its first move, and before each later one until those before it were made.
#[derive(Drop)]
struct Away {
    order: Order,
}

impl Hold for Away {
    fn before(&self, agent: u32, k: u32) -> bool {
        if k == 0 {
            turn(1_000_000);
        }
        self.order.before(agent, k)
    }

    fn applied(&self, agent: u32, k: u32) -> bool {
        self.order.applied(agent, k)
    }
}

#[test]
fn a_patient_owner_goes_round_in_vain_for_long(rt: HostRuntime) -> Result<(), Fail> {
    let away = Away {
        order: Order::new(rounds(rt.alloc(), &[1], 0)?),
    };
    race_adders(&rt, rt.alloc(), Way::PATIENT, &[1], away)?;
    Ok(())
}

/// Holds two agents back so long that an owner goes round in vain, and then the second one until the first one's three
/// moves were made, or for a while where its owner makes none.
#[derive(Drop)]
struct Late {
    made: AtomicU32,
}

impl Hold for Late {
    fn before(&self, agent: u32, k: u32) -> bool {
        if k == 0 {
            turn(100_000);
        }
        if k == 0 && agent == 1 {
            turn_at_most(1_000_000, &self.made, 3);
        }
        true
    }

    fn applied(&self, _agent: u32, _k: u32) -> bool {
        self.made.fetch_add(1, Ordering::SeqCst);
        true
    }
}

/// Whether an owner of so much patience stopped going round before the first move came, in one of some races.
fn has_stopped<R: Threads + Wait + Sync>(
    rt: &R,
    alloc: Global,
    patience: u32,
) -> Result<bool, Fail> {
    let order = Order::new(rounds(alloc, &[1, 1], 0)?);
    for _ in 0..20 {
        let late = Late {
            made: AtomicU32::new(0),
        };
        let way = Way::Rings { patience };
        let (report, _) = race_adders(rt, alloc, way, &[1, 1], late)?;
        if order.is_of(&report.schedule) {
            return Ok(true);
        }
    }
    Ok(false)
}

#[test]
fn an_owner_of_little_patience_stops_going_round(rt: HostRuntime) -> Result<(), Fail> {
    expect(has_stopped(&rt, rt.alloc(), 1)?, "patience 1 has no end")?;
    expect(has_stopped(&rt, rt.alloc(), 2)?, "patience 2 has no end")
}
