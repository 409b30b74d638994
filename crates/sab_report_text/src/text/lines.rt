//! Which entries of a journal have a line.

ghost use Rattle.std.specs.Prelude.{◌≡◌};

use sab_plan::What;

/// Which entries of a journal have a line in a report.
#[derive(Clone, Copy, Debug, PartialEq, Eq)]
pub enum Lines {
    /// All of them.
    All,
    /// All but the begins and the returns, which are two thirds of a report without waits.
    Acts,
}

impl Lines {
    ghost use Rattle.sab_report_text.specs.Text.Lines.{has_line};

    /// Whether an entry that did this has a line.
    pub fn has(self, what: What) -> bool
        ensures { result ≡ has_line self what }
    {
        match self {
            Lines::All => true,
            Lines::Acts => !matches!(what, What::Began | What::Returned(_)),
        }
    }
}
