//! What is found out about a call.

use sab_replay::faults::ToolFault;
use std::alloc::{AllocError, AllocFailed};

/// By what a call was refused.
#[derive(Clone, Copy)]
pub enum Refusal {
    AllocError,
    OutOfMemory,
    NoThread,
    WriteFailed,
}

impl Refusal {
    /// Its word in a line of the program.
    pub fn name(self) -> &'static str {
        match self {
            Refusal::AllocError => "AllocError",
            Refusal::OutOfMemory => "OutOfMemory",
            Refusal::NoThread => "NoThread",
            Refusal::WriteFailed => "WriteFailed",
        }
    }
}

/// What is found out about a call.
#[derive(Clone, Copy)]
pub enum Found {
    /// It gave its answer.
    Answered,
    /// It gave its answer, and a further allocation is refused.
    AnsweredAtLast,
    /// It was refused in a way that it may be, and what has to stand stands.
    Refused(Refusal),
    /// Anything else, as these words say.
    Wrong(&'static str),
}

impl Found {
    /// Of an answer, which is the right one or not.
    pub fn answer(is_right: bool) -> Found {
        if is_right {
            Found::Answered
        } else {
            Found::Wrong("another answer")
        }
    }

    /// Of a refusal, after which all that has to stand stands or doesn't.
    pub fn refused(refusal: Refusal, stands: bool) -> Found {
        if stands {
            Found::Refused(refusal)
        } else {
            Found::Wrong("after a refusal it isn't as before")
        }
    }

    /// Of a fault: OutOfMemory or NoThread, reported by its number, with nothing written.
    pub fn fault(fault: ToolFault, is_unwritten: bool) -> Found {
        match fault.number() {
            5 => Found::refused(Refusal::OutOfMemory, is_unwritten),
            9 => Found::refused(Refusal::NoThread, is_unwritten),
            _ => Found::Wrong("another fault"),
        }
    }
}

/// Why a call isn't tried: what it is to be given isn't there.
#[derive(Clone, Copy)]
pub enum Unmade {
    /// There was no memory for it.
    OutOfMemory,
    /// It can't be made, as these words say.
    Wrong(&'static str),
}

impl From<AllocError> for Unmade {
    fn from(_refused: AllocError) -> Unmade {
        Unmade::OutOfMemory
    }
}

impl<T: Drop> From<AllocFailed<T>> for Unmade {
    fn from(_refused: AllocFailed<T>) -> Unmade {
        Unmade::OutOfMemory
    }
}

impl From<ToolFault> for Unmade {
    fn from(fault: ToolFault) -> Unmade {
        match fault.number() {
            5 => Unmade::OutOfMemory,
            _ => Unmade::Wrong("a script is refused"),
        }
    }
}
