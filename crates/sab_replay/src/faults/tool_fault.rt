//! Refusals of tools.

ghost use Rattle.std.specs.Prelude.{◌≡◌};

use sab_race::RaceFault;
use sab_refusal::{ReadFault, Refusal};
use std::alloc::AllocError;
use std::io;
use thiserror::Error;

/// Why a tool doesn't do what it was asked for.
///
/// Its text is its name.
#[derive(Clone, Copy, Debug, PartialEq, Eq, Error)]
pub enum ToolFault {
    /// A script has more bytes in a block, or more blocks, views, agents, calls or moves than it can have.
    #[error("TooMany")]
    TooMany,
    /// A growth was refused.
    #[error("OutOfMemory")]
    OutOfMemory,
    /// The moves of all agents are more than 2^20.
    #[error("TooManyMoves")]
    TooManyMoves,
    /// The start of a thread was refused.
    #[error("NoThread")]
    NoThread,
    /// A value is of another type than its place asks for, an object has a member too many or lacks one, or a call is
    /// an empty array.
    #[error("BadShape")]
    BadShape,
    /// A view's name has a wrong form or is given twice, or a call is on a name that no view has.
    #[error("BadName")]
    BadName,
    /// A number isn't a safe integer, a block has fewer than 0 bytes, or a string isn't the one spelling of a BigInt.
    #[error("BadNumber")]
    BadNumber,
    /// There is no call of that name, or it has another number of elements.
    #[error("BadCall")]
    BadCall,
    /// There is no kind of that name, or the view doesn't fit its block.
    #[error("BadView")]
    BadView,
    /// A move of the schedule names an agent that isn't there.
    #[error("BadAgent")]
    BadAgent,
    /// The input isn't a JSON text in UTF-8.
    #[error("NotJson")]
    NotJson,
    /// A write or a flush failed.
    #[error("WriteFailed")]
    WriteFailed,
    /// The input has more bytes than it can have.
    #[error("TooLong")]
    TooLong,
    /// A read failed.
    #[error("ReadFailed")]
    ReadFailed,
    /// A script has no block, or a view's block is the position of none.
    #[error("NoBlock")]
    NoBlock,
    /// A script that is to be judged stands for a run with ordinary accesses, which only the run's trace has.
    #[error("OrdinaryData")]
    OrdinaryData,
    /// An edge of an automaton leads to no node, has an answer that its node can't have or that another edge has, or
    /// goes back within a segment; or a write hasn't one edge.
    #[error("BadEdge")]
    BadEdge,
    /// An automaton has no node, or an agent follows no automaton.
    #[error("NoNode")]
    NoNode,
    /// What an ordinary access reads or writes isn't a range of a block.
    #[error("BadRange")]
    BadRange,
}

impl ToolFault {
    ghost use Rattle.sab_replay.specs.Faults.ToolFault.{number_of, name_of, IsOfNumber};
    ghost use Rattle.sab_replay.specs.Faults.Conversions.{as_tool_fault, script_as_tool_fault, race_as_tool_fault};

    /// The number that it is reported by.
    pub fn number(self) -> u32
        ensures { result ≡ number_of self }
    {
        match self {
            ToolFault::TooMany => 3,
            ToolFault::OutOfMemory => 5,
            ToolFault::TooManyMoves => 8,
            ToolFault::NoThread => 9,
            ToolFault::BadShape => 10,
            ToolFault::BadName => 11,
            ToolFault::BadNumber => 12,
            ToolFault::BadCall => 13,
            ToolFault::BadView => 14,
            ToolFault::BadAgent => 15,
            ToolFault::NotJson => 16,
            ToolFault::WriteFailed => 17,
            ToolFault::TooLong => 18,
            ToolFault::ReadFailed => 19,
            ToolFault::NoBlock => 20,
            ToolFault::OrdinaryData => 21,
            ToolFault::BadEdge => 22,
            ToolFault::NoNode => 23,
            ToolFault::BadRange => 24,
        }
    }

    /// The fault of this number, if there is one.
    pub fn of_number(number: u32) -> Option<ToolFault>
        ensures { IsOfNumber number result }
    {
        let fault = match number {
            3 => ToolFault::TooMany,
            5 => ToolFault::OutOfMemory,
            8 => ToolFault::TooManyMoves,
            9 => ToolFault::NoThread,
            10 => ToolFault::BadShape,
            11 => ToolFault::BadName,
            12 => ToolFault::BadNumber,
            13 => ToolFault::BadCall,
            14 => ToolFault::BadView,
            15 => ToolFault::BadAgent,
            16 => ToolFault::NotJson,
            17 => ToolFault::WriteFailed,
            18 => ToolFault::TooLong,
            19 => ToolFault::ReadFailed,
            20 => ToolFault::NoBlock,
            21 => ToolFault::OrdinaryData,
            22 => ToolFault::BadEdge,
            23 => ToolFault::NoNode,
            24 => ToolFault::BadRange,
            _ => return None,
        };
        Some(fault)
    }

    /// Its name, as it is spelled here.
    pub fn name(self) -> &'static str
        ensures { result.now ≡ name_of self }
    {
        match self {
            ToolFault::TooMany => "TooMany",
            ToolFault::OutOfMemory => "OutOfMemory",
            ToolFault::TooManyMoves => "TooManyMoves",
            ToolFault::NoThread => "NoThread",
            ToolFault::BadShape => "BadShape",
            ToolFault::BadName => "BadName",
            ToolFault::BadNumber => "BadNumber",
            ToolFault::BadCall => "BadCall",
            ToolFault::BadView => "BadView",
            ToolFault::BadAgent => "BadAgent",
            ToolFault::NotJson => "NotJson",
            ToolFault::WriteFailed => "WriteFailed",
            ToolFault::TooLong => "TooLong",
            ToolFault::ReadFailed => "ReadFailed",
            ToolFault::NoBlock => "NoBlock",
            ToolFault::OrdinaryData => "OrdinaryData",
            ToolFault::BadEdge => "BadEdge",
            ToolFault::NoNode => "NoNode",
            ToolFault::BadRange => "BadRange",
        }
    }

    /// The fault of a write or a flush that failed with this error: WriteFailed.
    pub fn of_write(_error: io::Error) -> ToolFault
        ensures { result ≡ ToolFault.WriteFailed }
    {
        Self::WriteFailed
    }

    /// The fault of a script that is refused with this one.
    fn of_read(fault: ReadFault) -> ToolFault
        ensures { result ≡ as_tool_fault fault }
    {
        match fault {
            ReadFault::TooMany => ToolFault::TooMany,
            ReadFault::BadShape => ToolFault::BadShape,
            ReadFault::BadName => ToolFault::BadName,
            ReadFault::BadNumber => ToolFault::BadNumber,
            ReadFault::BadCall => ToolFault::BadCall,
            ReadFault::BadView => ToolFault::BadView,
            ReadFault::BadAgent => ToolFault::BadAgent,
            ReadFault::NoBlock => ToolFault::NoBlock,
            ReadFault::OutOfMemory => ToolFault::OutOfMemory,
        }
    }

    /// The fault of bytes that are refused as a script.
    fn of_refusal(refusal: Refusal) -> ToolFault
        ensures { result ≡ script_as_tool_fault refusal }
    {
        match refusal {
            Refusal::NotJson(_) => ToolFault::NotJson,
            Refusal::Tree(refusal) => ToolFault::of_read(refusal.fault()),
        }
    }

    /// The fault of a race that ends with this one.
    fn of_race(fault: RaceFault) -> ToolFault
        ensures { result ≡ race_as_tool_fault fault }
    {
        match fault {
            RaceFault::TooManyMoves => ToolFault::TooManyMoves,
            RaceFault::OutOfMemory => ToolFault::OutOfMemory,
            RaceFault::NoThread => ToolFault::NoThread,
        }
    }
}

impl From<ReadFault> for ToolFault {
    ghost use Rattle.sab_replay.specs.Faults.Conversions.{as_tool_fault};

    ghost from_gives = { λ e f. f ≡ as_tool_fault e };

    fn from(fault: ReadFault) -> ToolFault {
        ToolFault::of_read(fault)
    }
}

impl From<Refusal> for ToolFault {
    ghost use Rattle.sab_replay.specs.Faults.Conversions.{script_as_tool_fault};

    ghost from_gives = { λ r f. f ≡ script_as_tool_fault r };

    fn from(refusal: Refusal) -> ToolFault {
        ToolFault::of_refusal(refusal)
    }
}

impl From<AllocError> for ToolFault {
    ghost use Rattle.sab_replay.specs.declared.faults.tool_fault.ToolFault.TheVariants.{OutOfMemory};

    ghost from_gives = { λ _ fault. fault ≡ OutOfMemory };

    fn from(_refused: AllocError) -> ToolFault {
        ToolFault::OutOfMemory
    }
}

impl From<RaceFault> for ToolFault {
    ghost use Rattle.sab_replay.specs.Faults.Conversions.{race_as_tool_fault};

    ghost from_gives = { λ e f. f ≡ race_as_tool_fault e };

    fn from(fault: RaceFault) -> ToolFault {
        ToolFault::of_race(fault)
    }
}
