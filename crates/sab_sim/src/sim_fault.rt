//! Refusals of moves.

use std::error::Error;
use std::fmt;

/// Why a move is refused.
#[derive(Clone, Copy, Debug, PartialEq, Eq)]
pub enum SimFault {
    /// The move names an agent that isn't there.
    NoAgent,
    /// The journal has 2^20 entries.
    Full,
    /// A growth was refused.
    OutOfMemory,
}

impl fmt::Display for SimFault {
    ghost use Rattle.std.specs.Prelude.{Some};
    ghost use Rattle.sab_sim.specs.SimFault.{text_of};

    ghost output = { λ fault. Some (text_of fault) };

    fn fmt<W: fmt::Write>(&self, f: &mut fmt::Formatter<W>) -> fmt::Result {
        f.write_str(match self {
            SimFault::NoAgent => "the move names no agent",
            SimFault::Full => "the journal is full",
            SimFault::OutOfMemory => "there is no memory for the move",
        })
    }
}

impl Error for SimFault {}
