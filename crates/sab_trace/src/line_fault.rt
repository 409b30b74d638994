//! Faults of a trace's lines.

ghost use Rattle.std.specs.Prelude.{◌≡◌};

use std::fmt;

/// Why a trace can't be read.
///
/// Its text is its name.
#[derive(Clone, Copy, Debug)]
pub enum LineFault {
    /// There are 2^20 lines before it.
    TooMany,
    /// A growth was refused.
    OutOfMemory,
    /// It is no object, a member is missing or too many, a member is of another type than its place asks for, or the
    /// flags don't go with what the event does.
    BadShape,
    /// A number isn't whole or not within its range, `event` isn't the position of the line, or the size doesn't go
    /// with what the event does.
    BadNumber,
    /// The agent isn't 0 to 15.
    BadAgent,
    /// It isn't a JSON text in UTF-8.
    NotJson,
    /// It has more than 1,024 bytes.
    TooLong,
    /// A read failed.
    ReadFailed,
    /// The bytes that are accessed, or that are waited at, are ones that no block can have.
    BadBytes,
}

impl LineFault {
    ghost use Rattle.sab_trace.specs.LineFault.{name_of};

    /// Its name, as it is spelled here.
    pub fn name(self) -> &'static str
        ensures { result.now ≡ name_of self }
    {
        match self {
            LineFault::TooMany => "TooMany",
            LineFault::OutOfMemory => "OutOfMemory",
            LineFault::BadShape => "BadShape",
            LineFault::BadNumber => "BadNumber",
            LineFault::BadAgent => "BadAgent",
            LineFault::NotJson => "NotJson",
            LineFault::TooLong => "TooLong",
            LineFault::ReadFailed => "ReadFailed",
            LineFault::BadBytes => "BadBytes",
        }
    }
}

impl fmt::Display for LineFault {
    ghost use Rattle.std.specs.Prelude.{Some};
    ghost use Rattle.sab_trace.specs.LineFault.{name_of};

    ghost output = { λ fault. Some (name_of fault) };

    fn fmt<W: fmt::Write>(&self, f: &mut fmt::Formatter<W>) -> fmt::Result {
        f.write_str(self.name())
    }
}
