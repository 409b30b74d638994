//! Clocks of events.

ghost use Rattle.std.specs.Prelude.{◌<◌, ◌≤◌, All, length};
ghost use Rattle.sab_judge.specs.declared.event.Event.{Event};
ghost use Rattle.sab_judge.specs.Clock.{AreClocks, IsClock};
ghost use Rattle.sab_judge.specs.Past.{IsPast};
ghost use Rattle.sab_judge.specs.declared.trace.TheConstants.Trace.{MAX_EVENTS, MAX_AGENTS};

use crate::clock::Clock;
use crate::event::Event;
use crate::past::Past;
use crate::reads::{learned, learned_by_entering, learned_by_reading};

/// The clock of the `j`-th event: it knows the event, and all that happens before it.
pub(crate) fn clock_of(trace: &[Event], clocks: &[Clock], past: &Past, j: usize) -> Clock
    requires within { j < length trace.now }
    requires short { length trace.now ≤ MAX_EVENTS }
    requires agents { All (λ (e : Event). e.agent < MAX_AGENTS) trace.now }
    requires clocks { AreClocks trace.now j clocks.now }
    requires past { IsPast trace.now j past.now }
    ensures { IsClock trace.now j result }
{
    let agent = trace[j].agent;
    let own = learned(&Clock::new(), clocks, past.last_of_agent(agent));
    let entered = learned_by_entering(trace, clocks, past, j, own);
    let all = learned_by_reading(trace, clocks, past, j, entered);
    all.up_to(agent, j)
}
