//! Refusals of scripts.

use std::alloc::AllocError;
use std::error::Error;
use std::fmt;

/// Why a JSON value is refused as a script.
#[derive(Clone, Copy, Debug, PartialEq, Eq)]
pub enum ReadFault {
    /// A block has more than 65,536 bytes, or there are more than 4 blocks, 64 views, 16 agents, 1,000 calls of an
    /// agent or 100,000 moves.
    TooMany,
    /// A value is of another type than its place asks for, a member is missing or too many, or a call is an empty
    /// array.
    BadShape,
    /// A view's name isn't 1 to 32 ASCII letters, digits and `_`, or is given twice; or a call names no view.
    BadName,
    /// A number isn't whole and within ±(2^53 - 1), a block's length is negative, or a string is no BigInt.
    BadNumber,
    /// A call's name isn't there, or it has too few or too many elements.
    BadCall,
    /// A kind isn't there, or the view can't be made on its block.
    BadView,
    /// A move's number is no agent's.
    BadAgent,
    /// There is no block, or a view's block is the position of none.
    NoBlock,
    /// A growth was refused.
    OutOfMemory,
}

impl ReadFault {
    ghost use Rattle.std.specs.Prelude.{◌≡◌};
    ghost use Rattle.sab_refusal.specs.ReadFault.{number_of, name_of};

    /// The number that it is reported by.
    pub fn number(self) -> u32
        ensures { result ≡ number_of self }
    {
        match self {
            ReadFault::TooMany => 3,
            ReadFault::OutOfMemory => 5,
            ReadFault::BadShape => 10,
            ReadFault::BadName => 11,
            ReadFault::BadNumber => 12,
            ReadFault::BadCall => 13,
            ReadFault::BadView => 14,
            ReadFault::BadAgent => 15,
            ReadFault::NoBlock => 20,
        }
    }

    /// Its name, as it is spelled here.
    pub fn name(self) -> &'static str
        ensures { result.now ≡ name_of self }
    {
        match self {
            ReadFault::TooMany => "TooMany",
            ReadFault::OutOfMemory => "OutOfMemory",
            ReadFault::BadShape => "BadShape",
            ReadFault::BadName => "BadName",
            ReadFault::BadNumber => "BadNumber",
            ReadFault::BadCall => "BadCall",
            ReadFault::BadView => "BadView",
            ReadFault::BadAgent => "BadAgent",
            ReadFault::NoBlock => "NoBlock",
        }
    }
}

impl fmt::Display for ReadFault {
    ghost use Rattle.std.specs.Prelude.{Some};
    ghost use Rattle.sab_refusal.specs.ReadFault.{text_of};

    ghost output = { λ fault. Some (text_of fault) };

    fn fmt<W: fmt::Write>(&self, f: &mut fmt::Formatter<W>) -> fmt::Result {
        f.write_str(match self {
            ReadFault::TooMany => "the script has more of something than it can have",
            ReadFault::BadShape =>
                "a value of the script has another shape than its place asks for",
            ReadFault::BadName =>
                "a view's name has a wrong form or is given twice, or a call is on a name that no view has",
            ReadFault::BadNumber => "a number of the script isn't whole, or out of range",
            ReadFault::BadCall => "a call's name isn't there, or it has a wrong number of elements",
            ReadFault::BadView => "a view has a kind that isn't there, or doesn't fit its block",
            ReadFault::BadAgent => "a move names an agent that isn't there",
            ReadFault::NoBlock => "the script has no block, or a view names one that isn't there",
            ReadFault::OutOfMemory => "there is no memory for the script",
        })
    }
}

impl Error for ReadFault {}

impl From<AllocError> for ReadFault {
    ghost use Rattle.std.specs.Prelude.{◌≡◌};
    ghost use Rattle.sab_refusal.specs.declared.read_fault.ReadFault.TheVariants.{OutOfMemory};

    ghost from_gives = { λ _ fault. fault ≡ OutOfMemory };

    fn from(_refused: AllocError) -> ReadFault {
        ReadFault::OutOfMemory
    }
}
