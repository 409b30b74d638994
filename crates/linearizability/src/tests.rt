//! Histories of a queue of two places.

ghost use Rattle.std.specs.Prelude.{◌<◌};

use crate::{Cell, Monitor, Outcome, SequentialModel, sorted};
use std::alloc::{AllocError, Global};

/// Pushes 1. It is blocked if the queue is full.
const PUSH_1: u16 = 0;
/// Pushes 2.
const PUSH_2: u16 = 1;
/// Takes the first number. It is blocked if the queue is empty.
const POP: u16 = 2;
/// Takes the first number, or fails with result 0 and without effect.
const TRY_POP: u16 = 3;
/// Is open if the queue is full, and else blocked.
const WATCH: u16 = 4;

/// An event of a history.
#[derive(Clone, Copy)]
enum Event {
    /// An agent invokes an operation.
    Invokes(u16, u16),
    /// An agent's operation responds with a result.
    Responds(u16, u16),
}

/// States: 0 is empty; 1 and 2 have one number; 3 + 2 * (first - 1) + (second - 1) have two.
fn queue(alloc: Global) -> Result<SequentialModel, AllocError> {
    let mut cells = Vec::new(alloc);
    for state in 0..7 {
        cells.push(push(alloc, state, 1)?)?;
        cells.push(push(alloc, state, 2)?)?;
        match popped(state) {
            Some(outcome) => cells.push(known(alloc, &[outcome])?)?,
            None => cells.push(known(alloc, &[])?)?,
        }
        cells.push(try_pop(alloc, state)?)?;
        cells.push(if state < 3 {
            known(alloc, &[])?
        } else {
            Cell::Open
        })?;
    }
    Ok(SequentialModel {
        operations: 5,
        cells,
    })
}

/// The cell of an operation with these outcomes.
fn known(alloc: Global, outcomes: &[Outcome]) -> Result<Cell, AllocError> {
    Ok(Cell::Outcomes(outcomes.to_vec(alloc)?))
}

/// The cell of a push.
fn push(alloc: Global, state: u16, value: u16) -> Result<Cell, AllocError>
    requires { value < 3 }
{
    let next = match state {
        0 => value,
        1 => 2 + value,
        2 => 4 + value,
        _ => return known(alloc, &[]),
    };
    known(alloc, &[Outcome { result: 0, next }])
}

/// What comes of a pop, unless the queue is empty.
fn popped(state: u16) -> Option<Outcome> {
    let (result, next) = match state {
        0 => return None,
        1 => (1, 0),
        2 => (2, 0),
        3 => (1, 1),
        4 => (1, 2),
        5 => (2, 1),
        _ => (2, 2),
    };
    Some(Outcome { result, next })
}

/// The cell of a pop that may fail.
fn try_pop(alloc: Global, state: u16) -> Result<Cell, AllocError> {
    let fails = Outcome {
        result: 0,
        next: state,
    };
    match popped(state) {
        Some(outcome) => known(alloc, &[outcome, fails]),
        None => known(alloc, &[fails]),
    }
}

/// What a monitor says about a history at rest.
#[derive(Debug, PartialEq, Eq, Drop)]
enum Verdict {
    NotLinearizable,
    MeetsOpen,
    LostWakeUp,
    RightlyBlocked,
}

/// Follows a history. Returns what the monitor says about it, and how many configurations there are.
fn follow(
    alloc: Global,
    model: &SequentialModel,
    events: &[Event],
) -> Result<(Verdict, usize), AllocError> {
    let mut monitor = Monitor::new(alloc, model, 3)?;
    let mut is_linearizable = true;
    for event in events {
        match *event {
            Event::Invokes(agent, operation) if agent < monitor.agents => {
                monitor.invoke(alloc, model, agent, operation)?;
            }
            Event::Responds(agent, result) if agent < monitor.agents => {
                is_linearizable = monitor.respond(alloc, model, agent, result)?;
            }
            _ => return Err(AllocError),
        }
    }
    let verdict = if !is_linearizable {
        Verdict::NotLinearizable
    } else if monitor.meets_open(model) {
        Verdict::MeetsOpen
    } else if monitor.has_lost_wake_up(model) {
        Verdict::LostWakeUp
    } else {
        Verdict::RightlyBlocked
    };
    Ok((verdict, sorted(alloc, &monitor.rows)?.len()))
}

#[test]
fn overlapping_operations_take_effect_in_any_order(rt: HostRuntime) -> Result<(), AllocError> {
    let alloc = rt.alloc();
    let queue = queue(alloc)?;
    // Either number can come first.
    let overlap = [
        Event::Invokes(0, PUSH_1),
        Event::Invokes(1, PUSH_2),
        Event::Responds(0, 0),
        Event::Responds(1, 0),
        Event::Invokes(0, POP),
        Event::Responds(0, 2),
    ];
    assert_eq!(rt;
        follow(alloc, &queue, &overlap)?,
        (Verdict::RightlyBlocked, 1)
    );
    // A pop takes a number whose push hasn't responded.
    let early = [
        Event::Invokes(0, PUSH_1),
        Event::Invokes(1, POP),
        Event::Responds(1, 1),
    ];
    assert_eq!(rt; follow(alloc, &queue, &early)?, (Verdict::LostWakeUp, 1));
    Ok(())
}

#[test]
fn an_operation_takes_effect_behind_those_that_precede_it(
    rt: HostRuntime,
) -> Result<(), AllocError> {
    let alloc = rt.alloc();
    let queue = queue(alloc)?;
    // 1 was pushed before 2.
    let order = [
        Event::Invokes(0, PUSH_1),
        Event::Responds(0, 0),
        Event::Invokes(1, PUSH_2),
        Event::Responds(1, 0),
        Event::Invokes(0, POP),
        Event::Responds(0, 2),
    ];
    assert_eq!(rt;
        follow(alloc, &queue, &order)?,
        (Verdict::NotLinearizable, 0)
    );
    let right = [
        Event::Invokes(0, PUSH_1),
        Event::Responds(0, 0),
        Event::Invokes(1, PUSH_2),
        Event::Responds(1, 0),
        Event::Invokes(0, POP),
        Event::Responds(0, 1),
    ];
    assert_eq!(rt;
        follow(alloc, &queue, &right)?,
        (Verdict::RightlyBlocked, 1)
    );
    Ok(())
}

#[test]
fn a_number_is_popped_as_often_as_it_is_pushed(rt: HostRuntime) -> Result<(), AllocError> {
    let alloc = rt.alloc();
    let queue = queue(alloc)?;
    let never = [
        Event::Invokes(0, PUSH_1),
        Event::Invokes(1, POP),
        Event::Responds(1, 2),
    ];
    assert_eq!(rt;
        follow(alloc, &queue, &never)?,
        (Verdict::NotLinearizable, 0)
    );
    // Herlihy and Wing's H3.
    let twice = [
        Event::Invokes(0, PUSH_1),
        Event::Responds(0, 0),
        Event::Invokes(0, POP),
        Event::Invokes(1, POP),
        Event::Responds(0, 1),
        Event::Responds(1, 1),
    ];
    assert_eq!(rt;
        follow(alloc, &queue, &twice)?,
        (Verdict::NotLinearizable, 0)
    );
    Ok(())
}

#[test]
fn a_pop_waits_only_for_a_push(rt: HostRuntime) -> Result<(), AllocError> {
    let alloc = rt.alloc();
    let queue = queue(alloc)?;
    let waits = [Event::Invokes(0, POP)];
    assert_eq!(rt;
        follow(alloc, &queue, &waits)?,
        (Verdict::RightlyBlocked, 1)
    );
    let lost = [
        Event::Invokes(0, POP),
        Event::Invokes(1, PUSH_1),
        Event::Responds(1, 0),
    ];
    assert_eq!(rt; follow(alloc, &queue, &lost)?, (Verdict::LostWakeUp, 2));
    Ok(())
}

#[test]
fn a_pop_that_fails_has_no_effect(rt: HostRuntime) -> Result<(), AllocError> {
    let alloc = rt.alloc();
    let queue = queue(alloc)?;
    let failed = [
        Event::Invokes(0, PUSH_1),
        Event::Responds(0, 0),
        Event::Invokes(0, TRY_POP),
        Event::Responds(0, 0),
        Event::Invokes(0, POP),
        Event::Responds(0, 1),
    ];
    assert_eq!(rt;
        follow(alloc, &queue, &failed)?,
        (Verdict::RightlyBlocked, 1)
    );
    let popped = [
        Event::Invokes(0, PUSH_1),
        Event::Responds(0, 0),
        Event::Invokes(0, TRY_POP),
        Event::Responds(0, 1),
        Event::Invokes(0, POP),
        Event::Responds(0, 1),
    ];
    assert_eq!(rt;
        follow(alloc, &queue, &popped)?,
        (Verdict::NotLinearizable, 0)
    );
    Ok(())
}

#[test]
fn what_a_model_leaves_open_is_met_in_the_states_where_it_does(
    rt: HostRuntime,
) -> Result<(), AllocError> {
    let alloc = rt.alloc();
    let queue = queue(alloc)?;
    let blocked = [
        Event::Invokes(0, PUSH_1),
        Event::Responds(0, 0),
        Event::Invokes(1, WATCH),
    ];
    assert_eq!(rt;
        follow(alloc, &queue, &blocked)?,
        (Verdict::RightlyBlocked, 1)
    );
    let open = [
        Event::Invokes(0, PUSH_1),
        Event::Responds(0, 0),
        Event::Invokes(0, PUSH_2),
        Event::Responds(0, 0),
        Event::Invokes(1, WATCH),
    ];
    assert_eq!(rt; follow(alloc, &queue, &open)?, (Verdict::MeetsOpen, 1));
    Ok(())
}
