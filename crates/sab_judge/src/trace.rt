//! Traces.

ghost use Rattle.std.specs.Prelude.{◌≡◌, ◌++◌, ◌∷◌, [], IfErr, OnErr, OnOk};
ghost use Rattle.sab_judge.specs.Trace.{IsTrace, Refuses};

use crate::event::Event;
use crate::trace_fault::TraceFault;
use std::alloc::Global;
use std::marker::Model;

/// The events of a run, in the order in which they took effect.
#[derive(Debug, Drop)]
pub struct Trace {
    events: Vec<Event>,
}

impl Model for Trace {
    ghost use Rattle.std.specs.Prelude.{List};
    ghost use Rattle.sab_judge.specs.declared.event.Event.{Event};
    ghost use Rattle.sab_judge.specs.Trace.{IsTrace};

    ghost Value = { List Event };

    ghost view = { λ t. t.events.items };

    ghost invariant = { λ t. IsTrace t.events.items };
}

// The clauses cite the constants: so their numbers are held here.
const _: () = prove!(Trace::MAX_EVENTS == 1_048_576);

const _: () = prove!(Trace::MAX_AGENTS == 16);

impl Trace {
    /// How many events a trace can have.
    pub const MAX_EVENTS: usize = 1 << 20;

    /// How many agents there can be.
    pub const MAX_AGENTS: u32 = 16;

    /// A trace of no event. It takes no memory.
    pub fn new(alloc: Global) -> Trace
        ensures { result ≡ [] }
    {
        Trace {
            events: Vec::new(alloc),
        }
    }

    /// Appends an event.
    ///
    /// Refused are, in this order, an event beyond 2^20 (Full), one of an agent that can't be there (NoAgent), one at
    /// bytes that no block can have (OutOfRange), and one for which there is no memory (OutOfMemory). The trace is then
    /// as before.
    pub fn push(&mut self, event: Event) -> Result<(), TraceFault>
        ensures ok { OnOk result (self.new ≡ self.old ++ event ∷ []) }
        ensures err { OnErr result (self.new ≡ self.old) }
        ensures refused { IfErr result (Refuses self.old event) }
    {
        if self.events.len() >= Self::MAX_EVENTS {
            return Err(TraceFault::Full);
        }
        if event.agent >= Self::MAX_AGENTS {
            return Err(TraceFault::NoAgent);
        }
        if !event.is_in_blocks() {
            return Err(TraceFault::OutOfRange);
        }
        match self.events.push(event) {
            Ok(()) => Ok(()),
            Err(_) => Err(TraceFault::OutOfMemory),
        }
    }

    /// The events, in order.
    pub fn events(&self) -> &[Event]
        ensures events { result.now ≡ self.now }
        ensures valid { IsTrace self.now }
    {
        self.events.as_slice()
    }
}
