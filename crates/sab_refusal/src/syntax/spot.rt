//! Lines and columns.

ghost use Rattle.std.specs.Prelude.{◌≡◌};
ghost use Rattle.sab_refusal.specs.Syntax.Spot.{spot_after, is_by};

use std::fmt;

/// A line, and a column in bytes, both counted from 1.
#[derive(Clone, Copy, Debug)]
pub struct Spot {
    /// The line.
    pub line: usize,
    /// The column.
    pub column: usize,
}

impl Spot {
    /// That of the byte behind these.
    #[tactic(auto, using(crate::proofs::OfSyntax::Spots::next_line, crate::proofs::OfSyntax::Spots::next_column, crate::proofs::OfSyntax::Spots::last_spot))]
    pub fn after(bytes: &[u8]) -> Spot
        ensures { result ≡ spot_after bytes.now }
    {
        let mut line = 1;
        let mut column = 1;
        for byte in bytes {
            if *byte == b'\n' {
                line += 1;
                column = 1;
            } else {
                column += 1;
            }
        }
        Spot { line, column }
    }

    /// Whether it is another one, or before it.
    pub fn is_by(self, other: Spot) -> bool
        ensures { result ≡ is_by self other }
    {
        self.line < other.line || (self.line == other.line && self.column <= other.column)
    }
}

impl fmt::Display for Spot {
    ghost use Rattle.std.specs.Prelude.{Some};
    ghost use Rattle.sab_refusal.specs.Syntax.Spot.{spot_text};

    ghost output = { λ spot. Some (spot_text spot) };

    fn fmt<W: fmt::Write>(&self, f: &mut fmt::Formatter<W>) -> fmt::Result {
        let (line, column) = (self.line, self.column);
        write!(f, "line {line}, column {column}")
    }
}
