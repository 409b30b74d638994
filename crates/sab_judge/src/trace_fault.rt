//! Refusals of events.

use std::error::Error;
use std::fmt;

/// Why a trace doesn't take an event.
#[derive(Clone, Copy, Debug, PartialEq, Eq)]
pub enum TraceFault {
    /// There are 2^20 events.
    Full,
    /// The agent's number isn't below 16.
    NoAgent,
    /// Bytes are accessed, or waited at, that no block has: there are 4 blocks of 65,536 bytes.
    OutOfRange,
    /// Memory was refused.
    OutOfMemory,
}

impl fmt::Display for TraceFault {
    ghost use Rattle.std.specs.Prelude.{Some};
    ghost use Rattle.sab_judge.specs.TraceFault.{text_of};

    ghost output = { λ fault. Some (text_of fault) };

    fn fmt<W: fmt::Write>(&self, f: &mut fmt::Formatter<W>) -> fmt::Result {
        f.write_str(match self {
            TraceFault::Full => "the trace has as many events as it can have",
            TraceFault::NoAgent => "the event is of an agent that can't be there",
            TraceFault::OutOfRange => "the event is at bytes that no block can have",
            TraceFault::OutOfMemory => "out of memory",
        })
    }
}

impl Error for TraceFault {}
