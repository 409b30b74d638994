//! The place where a text stops being JSON, by line and column.

ghost use Rattle.sab_refusal.specs.Syntax.Place.{IsPlace};

use crate::syntax::fault::Fault;
use crate::syntax::spot::Spot;
use crate::syntax::stop::{Stop, stop_of};

/// The place where a text stops being JSON, and what is wrong there.
#[derive(Clone, Copy, Debug)]
pub struct Place {
    /// The line and the column of the token; if the text ends too early, those behind its last byte.
    pub spot: Spot,
    /// What is wrong with the token; nothing if the text ends too early.
    pub fault: Option<Fault>,
}

/// The place where a text stops being JSON.
///
/// It is that of the first byte of the first token that is broken: no text that is read begins with everything up to
/// the token's end. A word or a number with a byte behind it is judged as a whole: `[tru]` stops at `tru`. If no token
/// is broken, the text ends too early, and the place is behind its last byte.
pub fn place_of(text: &[u8]) -> Place
    ensures { IsPlace text.now result }
{
    match stop_of(text) {
        Stop::Token { at, fault } => Place {
            spot: Spot::after(&text[..at]),
            fault: Some(fault),
        },
        Stop::End => Place {
            spot: Spot::after(text),
            fault: None,
        },
    }
}
