//! Traces that are made event by event, and judged.
//!
//! What is a race, and what is none, is shown by rows of `recorder/tests/judge-rows`.

use sab_judge::{Access, Event, Order, Place, Race, Trace, TraceFault, Verdict, judge};
use std::alloc::{AllocError, Global};
use std::test::Fail;
use test_helpers::expect;

/// An ordinary access of an agent to so many bytes from a place on.
fn access(agent: u32, place: Place, len: u32, writes: bool) -> Event {
    Event {
        agent,
        access: Some(Access {
            place,
            len,
            reads: !writes,
            writes,
            order: Order::Unordered,
        }),
        waiters: None,
    }
}

/// An agent writes four bytes, the same for each agent.
fn write(agent: u32) -> Event {
    access(agent, Place { block: 0, byte: 8 }, 4, true)
}

/// An event in the critical section of the waiters of a word, as a notify has.
fn section(agent: u32, waiters: Place) -> Event {
    Event {
        agent,
        access: None,
        waiters: Some(waiters),
    }
}

/// A trace of four agents that each write.
fn four_writes(alloc: Global) -> Result<Trace, Fail> {
    let mut trace = Trace::new(alloc);
    for agent in 0..4 {
        expect(trace.push(write(agent)).is_ok(), "an event is refused")?;
    }
    Ok(trace)
}

fn race(first: usize, second: usize) -> Race {
    Race {
        first,
        second,
        is_data_race: true,
        seen: None,
    }
}

/// Whether a verdict has the first two of six data races, and how many are left.
fn has_two_of_six(verdict: &Verdict) -> bool {
    verdict.races.as_slice() == [race(0, 1), race(0, 2)].as_slice()
        && verdict.rest == 4
        && verdict.data_races == 6
        && !verdict.has_no_race()
}

#[test]
fn races_beyond_the_most_are_counted(rt: HostRuntime) -> Result<(), Fail> {
    let trace = four_writes(rt.alloc())?;
    let has_events = trace.events() == [write(0), write(1), write(2), write(3)].as_slice();
    expect(has_events, "the trace has other events")?;
    let verdict = judge(rt.alloc(), &trace, 2)?;
    expect(has_two_of_six(&verdict), "another verdict")
}

/// Whether a trace without events has no race.
fn is_quiet(alloc: Global) -> Result<bool, AllocError> {
    let verdict = judge(alloc, &Trace::new(alloc), 2)?;
    Ok(verdict.has_no_race() && verdict.races.is_empty() && verdict.rest == 0)
}

#[test]
fn a_trace_without_events_has_no_race(rt: HostRuntime) -> Result<(), Fail> {
    expect(is_quiet(rt.alloc())?, "there is a race")?;
    expect(Order::SeqCst.is_seq_cst(), "an order is mistaken")
}

/// Why an event can't be the first of a trace.
fn fault_of(alloc: Global, event: Event) -> Option<TraceFault> {
    let mut trace = Trace::new(alloc);
    trace.push(event).err()
}

const NO_AGENT: Option<TraceFault> = Some(TraceFault::NoAgent);

const OUT_OF_RANGE: Option<TraceFault> = Some(TraceFault::OutOfRange);

/// What an event shows; its agent, its block and its first byte; how many bytes are read or written, if it is an
/// access; whether it writes; and why it is refused, if it is.
const EVENTS: [(&str, u32, u32, u32, Option<u32>, bool, Option<TraceFault>); 7] = [
    ("the last agent", 15, 0, 8, Some(4), true, None),
    ("the longest access", 15, 3, 0, Some(65_536), false, None),
    ("the last place of waiters", 0, 0, 65_535, None, false, None),
    ("an agent too many", 16, 0, 8, Some(4), true, NO_AGENT),
    (
        "an access beyond its block",
        15,
        3,
        1,
        Some(65_536),
        false,
        OUT_OF_RANGE,
    ),
    ("a block too many", 15, 4, 0, Some(1), false, OUT_OF_RANGE),
    (
        "waiters beyond their block",
        0,
        0,
        65_536,
        None,
        false,
        OUT_OF_RANGE,
    ),
];

/// An access of so many bytes; or an event in the critical section of waiters, if there is no length.
fn event(agent: u32, place: Place, len: Option<u32>, writes: bool) -> Event {
    match len {
        Some(len) => access(agent, place, len, writes),
        None => section(agent, place),
    }
}

#[test]
fn events_beyond_the_limits_are_refused(rt: HostRuntime) -> Result<(), Fail> {
    for &(shows, agent, block, byte, len, writes, fault) in &EVENTS {
        let event = event(agent, Place { block, byte }, len, writes);
        expect(fault_of(rt.alloc(), event) == fault, shows)?;
    }
    Ok(())
}
