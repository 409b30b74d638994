//! The errors that calls throw.

use std::error::Error;
use std::fmt;

/// The error that a call throws, in place of an answer.
#[derive(Clone, Copy, Debug, PartialEq, Eq)]
pub enum Thrown {
    /// The view has the wrong kind, an operand is of the other numeric type, or the agent can't block.
    TypeError,
    /// An index has no element, or a view doesn't fit its block.
    RangeError,
}

/// Its text is the error's name.
impl fmt::Display for Thrown {
    ghost use Rattle.std.specs.Prelude.{Some};
    ghost use Rattle.sab_block.specs.Thrown.{name_of};

    ghost output = { λ thrown. Some (name_of thrown) };

    fn fmt<W: fmt::Write>(&self, f: &mut fmt::Formatter<W>) -> fmt::Result {
        f.write_str(match self {
            Thrown::TypeError => "TypeError",
            Thrown::RangeError => "RangeError",
        })
    }
}

impl Error for Thrown {}
