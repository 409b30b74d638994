//! Which races are data races of the execution itself.

ghost use Rattle.std.specs.Prelude.{◌≡◌, ◌+◌, ◌<◌, ◌↔◌, IsTrue, Some, false, length, true};
ghost use Rattle.std.specs.Option.{ForSome};
ghost use Rattle.sab_judge.specs.Clock.{HasClock};
ghost use Rattle.sab_judge.specs.Event.{event_at};
ghost use Rattle.sab_judge.specs.Past.{IsPast};
ghost use Rattle.sab_judge.specs.Readers.{AreNoted, Notes};
ghost use Rattle.sab_judge.specs.Seen.{IsSeen};
ghost use Rattle.sab_judge.specs.HappensBefore.{ReadsFrom};
ghost use Rattle.sab_judge.specs.Race.{Counts, IsRace, IsDataRace};

use crate::access::Access;
use crate::clock::Clock;
use crate::event::Event;
use crate::past::Past;
use crate::race::is_race;
use crate::race_kind::RaceKind;
use crate::readers::Readers;
use crate::seen::Seen;

/// Whether the race of the `i`-th event and the `j`-th is a data race: both write, or the `j`-th reads from the `i`-th.
pub(crate) fn is_data_race(trace: &[Event], past: &Past, i: usize, j: usize) -> bool
    requires race { IsRace trace.now i j }
    requires past { IsPast trace.now j past.now }
    ensures { IsTrue result ↔ IsDataRace trace.now i j }
{
    trace[i].writes_as(trace[j]) || reads_from(trace, past, i, j)
}

/// Whether the `j`-th event reads from the `i`-th.
fn reads_from(trace: &[Event], past: &Past, i: usize, j: usize) -> bool
    requires earlier { i < j }
    requires within { j < length trace.now }
    requires past { IsPast trace.now j past.now }
    ensures { IsTrue result ↔ ReadsFrom trace.now j i }
{
    match trace[j].access {
        Some(access) if access.reads => reads_byte_from(trace, past, i, j, access),
        _ => false,
    }
}

/// Whether the access of the `j`-th event reads some byte from the `i`-th.
fn reads_byte_from(trace: &[Event], past: &Past, i: usize, j: usize, access: Access) -> bool
    requires earlier { i < j }
    requires within { j < length trace.now }
    requires access { (event_at trace.now j).access ≡ Some access }
    requires reads { access.reads ≡ true }
    requires past { IsPast trace.now j past.now }
    ensures { IsTrue result ↔ ReadsFrom trace.now j i }
{
    let end = access.end();
    let mut byte = access.start();
    while byte < end {
        let held = past.last_writer(access.place.block, byte, end);
        if held.writer == Some(i) {
            return true;
        }
        byte = held.end;
    }
    false
}

/// How many data races there are of which the `j`-th event is the later one, by its clock.
pub(crate) fn count_data_races(
    trace: &[Event],
    clock: &Clock,
    past: &Past,
    seen: &Seen,
    readers: &mut Readers,
    j: usize,
) -> u64
    requires event_clock { HasClock trace.now j clock.now }
    requires past { IsPast trace.now j past.now }
    requires seen { IsSeen trace.now j seen.now }
    requires readers { AreNoted (length trace.now) j readers.old }
    ensures counted { Counts (λ i. IsDataRace trace.now i j) j result }
    ensures readers { AreNoted (length trace.now) (j + 1) readers.new }
{
    match trace[j].access {
        Some(access) if access.writes => seen.count_races(trace, clock, j, RaceKind::BothWrite),
        Some(access) if access.reads => count_read_from(trace, clock, past, readers, j, access),
        _ => 0,
    }
}

/// How many events race with the `j`-th, whose access only reads, and are read from by it.
fn count_read_from(
    trace: &[Event],
    clock: &Clock,
    past: &Past,
    readers: &mut Readers,
    j: usize,
    access: Access,
) -> u64
    requires event_clock { HasClock trace.now j clock.now }
    requires access { (event_at trace.now j).access ≡ Some access }
    requires reads { access.reads ≡ true }
    requires writes { access.writes ≡ false }
    requires past { IsPast trace.now j past.now }
    requires readers { AreNoted (length trace.now) j readers.old }
    ensures counted { Counts (λ i. IsDataRace trace.now i j) j result }
    ensures readers { AreNoted (length trace.now) (j + 1) readers.new }
{
    let end = access.end();
    let mut byte = access.start();
    let mut count = 0;
    while byte < end {
        let held = past.last_writer(access.place.block, byte, end);
        if is_one_more(trace, clock, readers, j, held.writer) {
            count += 1;
        }
        byte = held.end;
    }
    count
}

/// Notes that the `j`-th event reads a byte from its last writer, and returns whether that is one more which races with
/// it.
fn is_one_more(
    trace: &[Event],
    clock: &Clock,
    readers: &mut Readers,
    j: usize,
    writer: Option<usize>,
) -> bool
    requires event_clock { HasClock trace.now j clock.now }
    requires readers { length readers.old.last.items ≡ length trace.now }
    requires writer { ForSome writer (λ i. i < j) }
    ensures { Notes trace.now j writer readers.old readers.new result }
{
    match writer {
        Some(i) => readers.note(i, j) && is_race(trace, clock, i, j),
        None => false,
    }
}
