//! Orders that are forced on a race.

use crate::adders::race_adders;
use crate::turning::turn_until;
use crate::watching::{Hold, Watch};
use crate::way::Way;
use sab_sim::Move::{self, Step};
use std::alloc::{AllocError, Global};
use std::sync::atomic::{AtomicU32, Ordering};
use std::sync::{Arc, Wait};
use std::test::Fail;
use std::thread::Threads;
use test_helpers::{SHARED_WORD, expect, is_text, plan_of};

/// Holds each move back until those before it in an order were made.
#[derive(Drop)]
pub struct Order {
    /// Whose moves they are, from the first to the last.
    agents: Vec<u32>,
    /// How many were made.
    made: AtomicU32,
}

impl Order {
    /// No move of the order was made yet.
    pub fn new(agents: Vec<u32>) -> Order {
        Order {
            agents,
            made: AtomicU32::new(0),
        }
    }

    /// Where an agent's move stands in the order.
    pub fn place(&self, agent: u32, k: u32) -> Option<u32> {
        let (mut place, mut own) = (0_u32, 0_u32);
        for a in &self.agents {
            if *a == agent && own == k {
                return Some(place);
            }
            own = own.saturating_add(u32::from(*a == agent));
            place = place.saturating_add(1);
        }
        None
    }

    /// Turns until so many moves were made.
    pub fn wait(&self, moves: u32) -> bool {
        turn_until(&self.made, moves)
    }

    /// One more move was made. How many were before?
    pub fn add(&self) -> u32 {
        self.made.fetch_add(1, Ordering::SeqCst)
    }

    /// Whether a schedule is the steps of the order.
    pub fn is_of(&self, schedule: &[Move]) -> bool {
        for (m, agent) in schedule.iter().zip(&self.agents) {
            if *m != Step(*agent) {
                return false;
            }
        }
        schedule.len() == self.agents.len()
    }
}

impl Hold for Order {
    fn before(&self, agent: u32, k: u32) -> bool {
        match self.place(agent, k) {
            Some(place) => self.wait(place),
            None => false,
        }
    }

    fn applied(&self, _agent: u32, _k: u32) -> bool {
        self.add();
        true
    }
}

/// Whose moves two agents make, where agent 0 stores 5 and loads and agent 1 loads; and their report. First they take
/// turns, and then agent 1 comes first.
const OF_TWO: [([u32; 9], &str); 2] = [
    (
        [0, 1, 0, 1, 0, 1, 0, 0, 0],
        "\
0 0 0 begin
1 1 0 begin
2 0 0 act 5
3 1 0 act 5
4 0 0 return 5
5 1 0 return 5
6 0 1 begin
7 0 1 act 5
8 0 1 return 5
block 0 05000000
agent 0 2 of 2
agent 1 1 of 1
",
    ),
    (
        [1, 1, 1, 0, 0, 0, 0, 0, 0],
        "\
0 1 0 begin
1 1 0 act 0
2 1 0 return 0
3 0 0 begin
4 0 0 act 5
5 0 0 return 5
6 0 1 begin
7 0 1 act 5
8 0 1 return 5
block 0 05000000
agent 0 2 of 2
agent 1 1 of 1
",
    ),
];

/// Whether the race of the two has this report, where the order of its moves is forced on it.
fn is_raced<R: Threads + Wait + Sync>(
    rt: &R,
    alloc: Global,
    way: Way,
    agents: &[u32],
    text: &str,
) -> Result<bool, Fail> {
    let watch = Arc::new(alloc, Watch::new(Order::new(agents.to_vec(alloc)?)))?;
    let plan = plan_of(alloc, SHARED_WORD)?;
    let report = way.race(rt, alloc, plan, 0, Arc::try_clone(&watch)?)?;
    let is_in_order = watch.saw(&[6, 3]) && watch.hold.is_of(&report.schedule);
    Ok(is_in_order && is_text(alloc, &report, text)?)
}

#[test]
fn two_agents_come_as_their_threads_do(rt: HostRuntime) -> Result<(), Fail> {
    for (agents, text) in &OF_TWO {
        for way in &Way::FORCIBLE {
            let is_raced = is_raced(&rt, rt.alloc(), *way, agents, *text)?;
            expect(is_raced, *text)?;
        }
    }
    Ok(())
}

/// In which direction sixteen agents come, and how many moves in a row each makes then.
#[derive(Clone, Copy)]
enum Pass {
    Up(usize),
    Down(usize),
}

impl Pass {
    /// Which agent comes at this place of sixteen, and how many moves it makes.
    fn turn(self, place: u32) -> (u32, usize) {
        match self {
            Pass::Up(times) => (place, times),
            Pass::Down(times) => (15_u32.saturating_sub(place), times),
        }
    }
}

/// The order of these passes.
fn order_of(alloc: Global, passes: &[Pass]) -> Result<Order, AllocError> {
    let mut agents = Vec::new(alloc);
    for pass in passes {
        for place in 0..16 {
            let (agent, times) = pass.turn(place);
            for _ in 0..times {
                agents.push(agent)?;
            }
        }
    }
    Ok(Order::new(agents))
}

const ORDERS: [&[Pass]; 5] = [
    &[Pass::Up(2), Pass::Up(1)],
    &[Pass::Down(2), Pass::Down(1)],
    &[Pass::Down(3)],
    &[Pass::Down(1), Pass::Down(1), Pass::Down(1)],
    &[Pass::Up(1), Pass::Down(1), Pass::Up(1)],
];

/// While an agent makes the first moves of its call, each other is held back before its own first or last one. So in
/// the first two orders no thread but the agent's own is free to make them.
#[test]
fn sixteen_agents_come_as_their_threads_do(rt: HostRuntime) -> Result<(), Fail> {
    for passes in &ORDERS {
        for way in &Way::FORCIBLE {
            let order = order_of(rt.alloc(), *passes)?;
            let (report, order) = race_adders(&rt, rt.alloc(), *way, &[1; 16], order)?;
            expect(order.is_of(&report.schedule), "another order")?;
        }
    }
    Ok(())
}
