//! Entries with their facts.

ghost use Rattle.std.specs.Prelude.{◌≡◌};

use crate::call::Call;
use crate::entry::Entry;
use crate::place::Place;
use crate::waiters::Waiters;
use sab_block::{Check, Operand};

/// An entry with its fact.
#[derive(Drop)]
pub struct Explained {
    pub entry: Entry,
    pub fact: Fact,
}

/// What an entry found and changed, beyond what the entry itself has.
#[derive(Drop)]
pub struct Fact {
    /// The call that the agent was at; none where all its calls had returned.
    pub call: Option<Call>,
    /// The place that the call names; none where its view has no such element, or there is no call.
    pub place: Option<Place>,
    /// The position of the agent's last entry before this one that had an effect: since then it has stood as it stood.
    pub since: Option<u32>,
    /// What the entry found and changed in memory and in the line.
    pub found: Found,
}

/// What an entry found and changed in memory and in the line.
#[derive(Drop)]
pub enum Found {
    /// Nothing: the call began or returned, or the agent has no call left, or it doesn't wait.
    Nothing,
    /// A load: the element.
    Read {
        value: Operand,
    },
    /// A store or a read-modify-write: the element before and after.
    Wrote {
        before: Operand,
        after: Operand,
    },
    /// A compare-exchange: the element before and after, and whether it exchanged.
    Compared {
        before: Operand,
        after: Operand,
        exchanged: bool,
    },
    /// A wait whose value wasn't the element: the element.
    Differs {
        value: Operand,
    },
    /// A wait that joined the line: the agents before it at its place, oldest first.
    Joined {
        ahead: Waiters,
    },
    /// A notify: the agents that it woke, oldest first, and how many waited there.
    Notified {
        woken: Waiters,
        waiting: u32,
    },
    /// A wait that left ok, or a stuck end of time of an agent that was woken and hasn't left: the entry that woke it.
    WokenBy {
        entry: u32,
    },
    /// A call that threw: the first check that failed.
    Failed {
        check: Check,
    },
    /// A stuck entry of an agent that waits, or a wait that timed out: it had stood in the line at its place.
    Waited,
}

impl Found {
    ghost use Rattle.sab_plan.specs.Fact.{woken_in};

    /// The agents that the entry woke, oldest first.
    pub fn woken(&self) -> &[u32]
        ensures { result.now ≡ woken_in self.now }
    {
        match self {
            Found::Notified { woken, .. } => woken.agents(),
            _ => &[],
        }
    }
}
