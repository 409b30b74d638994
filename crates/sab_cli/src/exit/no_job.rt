//! Words that ask for no job: help, and command lines that are refused.

ghost use Rattle.std.specs.Prelude.{◌≡◌, Bool};
ghost use Rattle.clap.specs.Words.{kind_of};
ghost use Rattle.sab_cli.specs.Exit.Ending.{after_no_job};

use crate::exit::ending::Ending;
use clap::Error;
use clap::error::ErrorKind;
use sab_replay::faults::ToolFault;

/// Prints the help that was asked for, or why the command line was refused, and returns how the program ends.
///
/// Help that can't be printed is a write that failed. Where memory ran out nothing is printed.
pub fn without_job(rt: &(impl Print + Eprint), error: &Error) -> Ending
    ensures { (is_printed : Bool) × (result ≡ after_no_job (kind_of error.now) is_printed) }
{
    let kind = error.kind();
    let is_printed = kind != ErrorKind::OutOfMemory && error.print(rt).is_ok();
    ending_after(kind, is_printed)
}

/// How the program ends after the parser's text was printed, or couldn't be.
fn ending_after(kind: ErrorKind, is_printed: bool) -> Ending
    ensures { result ≡ after_no_job kind is_printed }
{
    match kind {
        ErrorKind::OutOfMemory => Ending::Failed(ToolFault::OutOfMemory),
        ErrorKind::DisplayHelp | ErrorKind::DisplayVersion => {
            if is_printed {
                Ending::Done
            } else {
                Ending::Failed(ToolFault::WriteFailed)
            }
        }
        _ => Ending::Refused,
    }
}
