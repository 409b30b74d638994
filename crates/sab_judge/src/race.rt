//! Races.

ghost use Rattle.std.specs.Prelude.{◌<◌, ◌↔◌, IsTrue};
ghost use Rattle.sab_judge.specs.Clock.{HasClock};
ghost use Rattle.sab_judge.specs.Race.{IsRace};

use crate::clock::Clock;
use crate::event::Event;

/// Two events that race, by their positions in the trace.
#[derive(Clone, Copy, Debug, PartialEq, Eq)]
pub struct Race {
    /// The earlier one.
    pub first: usize,
    /// The later one.
    pub second: usize,
    /// Whether it is a data race of this very execution, as ECMA-262 has it (Data Races): both write, or the later one
    /// reads from the earlier one. Else it would be one in another order of the same accesses.
    pub is_data_race: bool,
    /// The last event of the first one's agent that happens before the second one, where there is one: what that agent
    /// did after it is unordered with the second one.
    pub seen: Option<usize>,
}

/// Whether the `i`-th event and the later `j`-th, whose clock this is, race.
pub(crate) fn is_race(trace: &[Event], clock: &Clock, i: usize, j: usize) -> bool
    requires earlier { i < j }
    requires event_clock { HasClock trace.now j clock.now }
    ensures { IsTrue result ↔ IsRace trace.now i j }
{
    // The clock knows all earlier events of its own agent.
    let first = trace[i];
    first.conflicts(trace[j]) && !clock.knows(first.agent, i)
}
