//! The judge of a trace.

ghost use Rattle.std.specs.Prelude.{◌+◌, ◌<◌, ◌≤◌, ◌↔◌, ◌≢◌, All, IfOk, IsTrue, length};
ghost use Rattle.sab_judge.specs.declared.event.Event.{Event};
ghost use Rattle.sab_judge.specs.Clock.{HasClock};
ghost use Rattle.sab_judge.specs.Past.{IsPast};
ghost use Rattle.sab_judge.specs.Event.{agent_at};
ghost use Rattle.sab_judge.specs.Sought.{IsLastBelow, OfAgent};
ghost use Rattle.sab_judge.specs.Race.{Counts, IsDataRace, IsRace};
ghost use Rattle.sab_judge.specs.RaceKind.{IsRaceOf};
ghost use Rattle.sab_judge.specs.declared.race_kind.RaceKind.TheVariants.{Any};
ghost use Rattle.sab_judge.specs.Readers.{AreNoted};
ghost use Rattle.sab_judge.specs.Seen.{IsSeen};
ghost use Rattle.sab_judge.specs.Trace.{IsInBlocks};
ghost use Rattle.sab_judge.specs.Verdict.{IsLastSeen, IsVerdict};
ghost use Rattle.sab_judge.specs.RacesSoFar.{HasReported};
ghost use Rattle.sab_judge.specs.declared.trace.TheConstants.Trace.{MAX_EVENTS, MAX_AGENTS};

use crate::clock::Clock;
use crate::clocks::clock_of;
use crate::data_race::{count_data_races, is_data_race};
use crate::event::Event;
use crate::past::Past;
use crate::race::{Race, is_race};
use crate::race_kind::RaceKind;
use crate::readers::Readers;
use crate::seen::Seen;
use crate::trace::Trace;
use crate::verdict::Verdict;
use std::alloc::{AllocError, Global};

/// Judges the events of a run, which stand in the order in which they took effect (Races, Data Races).
///
/// Its first races are listed, at most `most`, by their later events, and those of one later event by their earlier
/// ones; the others are counted. So if none is listed although one could be, no two events race.
///
/// An event takes time by how many different accesses its own meets, and not by how often agents make them or by how
/// many bytes it has; and once more by the events, if its races are listed. The first access of a range also moves what
/// is kept behind it. Some 90 bytes are kept for each event, and some for each different access. Where memory is
/// refused, that is the answer.
pub fn judge(alloc: Global, trace: &Trace, most: usize) -> Result<Verdict, AllocError>
    ensures { IfOk result (λ verdict. IsVerdict trace.now most verdict.races.items verdict.rest verdict.data_races) }
{
    judge_events(alloc, trace.events(), most)
}

/// Judges the events of a trace.
fn judge_events(alloc: Global, trace: &[Event], most: usize) -> Result<Verdict, AllocError>
    requires short { length trace.now ≤ MAX_EVENTS }
    requires agents { All (λ (e : Event). e.agent < MAX_AGENTS) trace.now }
    requires blocks { All IsInBlocks trace.now }
    ensures { IfOk result (λ verdict. IsVerdict trace.now most verdict.races.items verdict.rest verdict.data_races) }
{
    let mut clocks = Vec::with_capacity(alloc, trace.len())?;
    let mut past = Past::new(alloc);
    let mut seen = Seen::new(alloc, trace.len())?;
    let mut readers = Readers::new(alloc, trace.len())?;
    let mut data_races = 0;
    let mut verdict = Verdict {
        races: Vec::new(alloc),
        rest: 0,
        data_races: 0,
    };
    for j in 0..trace.len() {
        let clock = clock_of(trace, &clocks, &past, j);
        let count = seen.count_races(trace, &clock, j, RaceKind::Any);
        data_races += data_races_of(trace, &clock, &past, &seen, &mut readers, j, count);
        report_or_count(&mut verdict, trace, &past, &clock, j, most, count)?;
        clocks.push_reserved(clock);
        past.note(alloc, trace, j)?;
        seen.keep(alloc, trace, j)?;
    }
    verdict.data_races = data_races;
    Ok(verdict)
}

/// How many data races there are of which the `j`-th event is the later one, with which so many race.
fn data_races_of(
    trace: &[Event],
    clock: &Clock,
    past: &Past,
    seen: &Seen,
    readers: &mut Readers,
    j: usize,
    count: u64,
) -> u64
    requires event_clock { HasClock trace.now j clock.now }
    requires past { IsPast trace.now j past.now }
    requires seen { IsSeen trace.now j seen.now }
    requires readers { AreNoted (length trace.now) j readers.old }
    requires count { Counts (λ i. IsRaceOf Any trace.now i j) j count }
    ensures counted { Counts (λ i. IsDataRace trace.now i j) j result }
    ensures readers { AreNoted (length trace.now) (j + 1) readers.new }
{
    if count == 0 {
        return 0;
    }
    count_data_races(trace, clock, past, seen, readers, j)
}

/// Lists the races of which the `j`-th event is the later one, which are so many; or counts them, if no more are to be
/// listed.
fn report_or_count(
    verdict: &mut Verdict,
    trace: &[Event],
    past: &Past,
    clock: &Clock,
    j: usize,
    most: usize,
    count: u64,
) -> Result<(), AllocError>
    requires event_clock { HasClock trace.now j clock.now }
    requires past { IsPast trace.now j past.now }
    requires count { Counts (λ i. IsRace trace.now i j) j count }
    requires reported { HasReported trace.now j 0 most verdict.old.races.items verdict.old.rest }
    ensures { IfOk result (λ _. HasReported trace.now j j most verdict.new.races.items verdict.new.rest) }
{
    if count > 0 && verdict.races.len() < most {
        return report_races(verdict, trace, past, clock, j, most);
    }
    verdict.rest += count;
    Ok(())
}

/// Lists the races of which the `j`-th event is the later one.
fn report_races(
    verdict: &mut Verdict,
    trace: &[Event],
    past: &Past,
    clock: &Clock,
    j: usize,
    most: usize,
) -> Result<(), AllocError>
    requires event_clock { HasClock trace.now j clock.now }
    requires past { IsPast trace.now j past.now }
    requires reported { HasReported trace.now j 0 most verdict.old.races.items verdict.old.rest }
    ensures { IfOk result (λ _. HasReported trace.now j j most verdict.new.races.items verdict.new.rest) }
{
    for i in 0..j {
        if is_race(trace, clock, i, j) {
            report_race(verdict, trace, past, clock, i, j, most)?;
        }
    }
    Ok(())
}

/// Lists the race of the `i`-th event and the `j`-th, or counts it if no more are to be listed.
fn report_race(
    verdict: &mut Verdict,
    trace: &[Event],
    past: &Past,
    clock: &Clock,
    i: usize,
    j: usize,
    most: usize,
) -> Result<(), AllocError>
    requires race { IsRace trace.now i j }
    requires event_clock { HasClock trace.now j clock.now }
    requires past { IsPast trace.now j past.now }
    requires reported { HasReported trace.now j i most verdict.old.races.items verdict.old.rest }
    ensures { IfOk result (λ _. HasReported trace.now j (i + 1) most verdict.new.races.items verdict.new.rest) }
{
    if verdict.races.len() < most {
        let is_data_race = is_data_race(trace, past, i, j);
        let seen = last_seen(trace, clock, trace[i].agent, j);
        verdict.races.push(Race {
            first: i,
            second: j,
            is_data_race,
            seen,
        })?;
    } else {
        verdict.rest += 1;
    }
    Ok(())
}

/// The last event of another agent that happens before the `j`-th, whose clock this is, if there is one.
fn last_seen(trace: &[Event], clock: &Clock, agent: u32, j: usize) -> Option<usize>
    requires event_clock { HasClock trace.now j clock.now }
    requires agent { agent < MAX_AGENTS }
    requires other { agent ≢ agent_at trace.now j }
    ensures { IsLastSeen trace.now agent j result }
{
    // The bound is that event's own, so the search ends where it begins.
    let bound = clock.bound(agent).min(j);
    last_of_agent(trace, agent, bound)
}

/// The last event of an agent among the first `n`, if there is one.
fn last_of_agent(trace: &[Event], agent: u32, n: usize) -> Option<usize>
    requires { n ≤ length trace.now }
    ensures { IsLastBelow trace.now (OfAgent agent) n result }
{
    trace[..n].iter().rposition(|event| event.agent == agent)
}
