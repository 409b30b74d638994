//! The line of a text that has what JSON hasn't.

use crate::check::foreign::Foreign;
use sab_refusal::syntax::Spot;
use std::fmt;

/// What JSON hasn't, and where it stands.
#[derive(Clone, Copy)]
pub(crate) struct ForeignLine {
    /// Where it stands.
    pub spot: Spot,
    /// What it is.
    pub what: Foreign,
}

impl ForeignLine {
    ghost use Rattle.std.specs.Fmt.{WritesOnOk};
    ghost use Rattle.sab_reader.specs.Check.Foreign.{foreign_line};

    /// Writes where it stands, and what it is.
    fn write_to<W: fmt::Write>(&self, f: &mut fmt::Formatter<W>) -> fmt::Result
        ensures { WritesOnOk W.write_str_gives f.old result (foreign_line self.now.spot self.now.what) f.new }
    {
        let (spot, what) = (self.spot, self.what);
        write!(f, "{spot}: 16 NotJson: {what}")
    }
}

impl fmt::Display for ForeignLine {
    ghost use Rattle.std.specs.Prelude.{Some};
    ghost use Rattle.sab_reader.specs.Check.Foreign.{foreign_line};

    ghost output = { λ line. Some (foreign_line line.spot line.what) };

    fn fmt<W: fmt::Write>(&self, f: &mut fmt::Formatter<W>) -> fmt::Result {
        self.write_to(f)
    }
}
