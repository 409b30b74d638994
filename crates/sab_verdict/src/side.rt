//! The events of a race.

ghost use Rattle.std.specs.Prelude.{◌≡◌, ◌<◌, IsTrue, length};
ghost use Rattle.sab_judge.specs.Event.{event_at};
ghost use Rattle.sab_verdict.specs.Events.{has_access, side_at};

use sab_judge::{Access, Event};

/// One of the two events of a race.
#[derive(Clone, Copy)]
pub(crate) struct Side {
    /// Its position in the trace.
    pub at: usize,
    /// Its agent.
    pub agent: u32,
    /// Its access.
    pub access: Access,
}

/// The event at position `k`, which has an access.
pub(crate) fn side_at(events: &[Event], k: usize) -> Side
    requires within { k < length events.now }
    requires access { IsTrue (has_access (event_at events.now k)) }
    ensures { result ≡ side_at events.now k }
{
    let event = events[k];
    let Some(access) = event.access else {
        unreachable!();
    };
    Side {
        at: k,
        agent: event.agent,
        access,
    }
}
