//! The line that reports a fault.

use sab_replay::faults::ToolFault;
use std::fmt;

/// What the program says on standard error of a fault.
///
/// Its text is `sabsim: {number} {name}`, without a line feed.
#[derive(Clone, Copy, Debug, PartialEq, Eq)]
pub struct FaultLine(pub ToolFault);

impl fmt::Display for FaultLine {
    ghost use Rattle.std.specs.Prelude.{Some};
    ghost use Rattle.sab_cli.specs.Exit.FaultLine.{text_of};

    ghost output = { λ line. Some (text_of line.0) };

    fn fmt<W: fmt::Write>(&self, f: &mut fmt::Formatter<W>) -> fmt::Result {
        let number = self.0.number();
        let name = self.0.name();
        write!(f, "sabsim: {number} {name}")
    }
}
