//! Refusals of races.

use std::alloc::AllocError;
use std::error::Error;
use std::fmt;

/// Why a race is refused.
#[derive(Clone, Copy, Debug, PartialEq, Eq)]
pub enum RaceFault {
    /// The moves of all agents are more than 2^20.
    TooManyMoves,
    /// A growth was refused.
    OutOfMemory,
    /// The start of a thread was refused.
    NoThread,
}

impl fmt::Display for RaceFault {
    ghost use Rattle.std.specs.Prelude.{Some};
    ghost use Rattle.sab_race.specs.RaceFault.{text_of};

    ghost output = { λ fault. Some (text_of fault) };

    fn fmt<W: fmt::Write>(&self, f: &mut fmt::Formatter<W>) -> fmt::Result {
        f.write_str(match self {
            RaceFault::TooManyMoves => "the agents have more moves than a journal can have entries",
            RaceFault::OutOfMemory => "there is no memory for the race",
            RaceFault::NoThread => "a thread couldn't be started",
        })
    }
}

impl Error for RaceFault {}

impl From<AllocError> for RaceFault {
    ghost use Rattle.std.specs.Prelude.{◌≡◌};
    ghost use Rattle.sab_race.specs.declared.race_fault.RaceFault.TheVariants.{OutOfMemory};

    ghost from_gives = { λ _ fault. fault ≡ OutOfMemory };

    fn from(_refused: AllocError) -> RaceFault {
        RaceFault::OutOfMemory
    }
}
