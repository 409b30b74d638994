//! What an event learns of others.

ghost use Rattle.std.specs.Prelude.{◌<◌, ◌≡◌, length, Some};
ghost use Rattle.std.specs.Option.{ForSome};
ghost use Rattle.sab_judge.specs.Event.{event_at};
ghost use Rattle.sab_judge.specs.Clock.{AreClocks, KnowsMore, KnowsOnlyBefore, KnowsWhatIsRead, KnowsWhoHandedOn};
ghost use Rattle.sab_judge.specs.Clock.{Learns};
ghost use Rattle.sab_judge.specs.Sought.{IsLastBelow, IsReadFrom, Writes};
ghost use Rattle.sab_judge.specs.Past.{IsPast};

use crate::access::Access;
use crate::clock::Clock;
use crate::event::Event;
use crate::past::Past;

/// What the clock knows, and what that of an event does, where there is one.
pub(crate) fn learned(clock: &Clock, clocks: &[Clock], from: Option<usize>) -> Clock
    requires { ForSome from (λ m. m < length clocks.now) }
    ensures { Learns clock.now clocks.now from result }
{
    match from {
        Some(m) => clock.joined(&clocks[m]),
        None => *clock,
    }
}

/// What the clock knows, and what is known to who left the critical section that the `j`-th event enters, if it enters
/// one.
pub(crate) fn learned_by_entering(
    trace: &[Event],
    clocks: &[Clock],
    past: &Past,
    j: usize,
    clock: Clock,
) -> Clock
    requires within { j < length trace.now }
    requires clocks { AreClocks trace.now j clocks.now }
    requires past { IsPast trace.now j past.now }
    requires only { KnowsOnlyBefore trace.now j clock }
    ensures more { KnowsMore clock result }
    ensures only { KnowsOnlyBefore trace.now j result }
    ensures entered { KnowsWhoHandedOn trace.now j result }
{
    match trace[j].waiters {
        Some(place) => learned(&clock, clocks, past.last_at_waiters(place)),
        None => clock,
    }
}

/// The event with a SeqCst access of equal range from which the `j`-th event reads the byte, whose last writer is
/// given.
fn read_from(trace: &[Event], j: usize, block: u32, byte: u64, last: Option<usize>) -> Option<usize>
    requires within { j < length trace.now }
    requires last { IsLastBelow trace.now (Writes block byte) j last }
    ensures { IsReadFrom trace.now j block byte result }
{
    let writer = last?;
    let now = trace[j];
    if now.reads(block, byte) && trace[writer].is_alike(now) {
        Some(writer)
    } else {
        None
    }
}

/// What the clock knows, and what is known to those from which the `j`-th event reads by a SeqCst access, if it makes
/// one.
pub(crate) fn learned_by_reading(
    trace: &[Event],
    clocks: &[Clock],
    past: &Past,
    j: usize,
    clock: Clock,
) -> Clock
    requires within { j < length trace.now }
    requires clocks { AreClocks trace.now j clocks.now }
    requires past { IsPast trace.now j past.now }
    requires only { KnowsOnlyBefore trace.now j clock }
    ensures more { KnowsMore clock result }
    ensures only { KnowsOnlyBefore trace.now j result }
    ensures read { KnowsWhatIsRead trace.now j result }
{
    match trace[j].access {
        Some(access) if access.order.is_seq_cst() => {
            learned_at_each(trace, clocks, past, j, access, clock)
        }
        _ => clock,
    }
}

/// What the clock knows, and what is known to those from which the SeqCst access of the `j`-th event reads.
fn learned_at_each(
    trace: &[Event],
    clocks: &[Clock],
    past: &Past,
    j: usize,
    access: Access,
    clock: Clock,
) -> Clock
    requires within { j < length trace.now }
    requires access { (event_at trace.now j).access ≡ Some access }
    requires clocks { AreClocks trace.now j clocks.now }
    requires past { IsPast trace.now j past.now }
    requires only { KnowsOnlyBefore trace.now j clock }
    ensures more { KnowsMore clock result }
    ensures only { KnowsOnlyBefore trace.now j result }
    ensures read { KnowsWhatIsRead trace.now j result }
{
    let block = access.place.block;
    let end = access.end();
    let mut byte = access.start();
    let mut known = clock;
    while byte < end {
        let held = past.last_writer(block, byte, end);
        let from = read_from(trace, j, block, byte, held.writer);
        known = learned(&known, clocks, from);
        byte = held.end;
    }
    known
}
