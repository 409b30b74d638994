//! Words of a command line that can't be had.

ghost use Rattle.std.specs.Prelude.{◌≡◌, ◌≢◌};
ghost use Rattle.std.specs.IoError.{error_kind};

use crate::exit::ending::Ending;
use sab_replay::faults::ToolFault;
use std::io::{Error, ErrorKind};

/// Says on standard error that the words are no text, unless memory ran out, and returns how the program ends.
pub fn without_words(rt: &impl Eprint, error: &Error) -> Ending
    ensures memory { error_kind error.now ≡ ErrorKind.OutOfMemory → result ≡ Ending.Failed ToolFault.OutOfMemory }
    ensures text { error_kind error.now ≢ ErrorKind.OutOfMemory → result ≡ Ending.Refused }
{
    if error.kind() == ErrorKind::OutOfMemory {
        return Ending::Failed(ToolFault::OutOfMemory);
    }
    let _ = eprintln!(rt; "sabsim: the command line is no text");
    Ending::Refused
}
