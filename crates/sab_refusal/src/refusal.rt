//! Refusals of scripts as bytes.

use crate::located::Located;
use crate::reason::Reason;
use crate::syntax::Place;
use std::error::Error;
use std::fmt;

/// Why bytes are refused as a script, and where.
#[derive(Clone, Copy, Debug)]
pub enum Refusal {
    /// They are no JSON text that is read; where they stop being one, and why.
    NotJson(Place),
    /// They are the JSON text of a value that is refused.
    Tree(Located),
}

impl Refusal {
    ghost use Rattle.std.specs.Prelude.{◌≡◌, ◌↔◌, IsTrue};
    ghost use Rattle.std.specs.Fmt.{WritesOnOk};
    ghost use Rattle.sab_refusal.specs.declared.refusal.Refusal.TheVariants.{NotJson};
    ghost use Rattle.sab_refusal.specs.Refusal.{IsMemory, refusal_text};

    /// Whether it is for want of memory alone.
    pub fn is_memory(self) -> bool
        ensures { IsTrue result ↔ IsMemory self }
    {
        match self {
            Refusal::Tree(refusal) => matches!(refusal.why, Reason::Memory),
            Refusal::NotJson(_) => false,
        }
    }

    /// Writes where bytes stop being a JSON text, and why.
    fn write_not_json<W: fmt::Write>(f: &mut fmt::Formatter<W>, place: Place) -> fmt::Result
        ensures { WritesOnOk W.write_str_gives f.old result (refusal_text (NotJson place)) f.new }
    {
        let spot = place.spot;
        match place.fault {
            Some(fault) => write!(f, "{spot}: 16 NotJson: {fault}"),
            None => write!(f, "{spot}: 16 NotJson: the text ends too early"),
        }
    }
}

impl fmt::Display for Refusal {
    ghost use Rattle.std.specs.Prelude.{Some};
    ghost use Rattle.sab_refusal.specs.Refusal.{refusal_text};

    ghost output = { λ refusal. Some (refusal_text refusal) };

    fn fmt<W: fmt::Write>(&self, f: &mut fmt::Formatter<W>) -> fmt::Result {
        match self {
            Refusal::NotJson(place) => Refusal::write_not_json(f, *place),
            Refusal::Tree(refusal) => write!(f, "{refusal}"),
        }
    }
}

impl Error for Refusal {}
