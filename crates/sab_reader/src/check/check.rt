//! From the bytes of a script to what a check says.

ghost use Rattle.std.specs.Prelude.{◌≡◌, IfOk, string_bytes};
ghost use Rattle.sab_reader.specs.Check.Checked.{IsChecked, Says};
ghost use Rattle.sab_reader.specs.Check.Text.{accepted_text};

use crate::check::foreign_line::ForeignLine;
use crate::check::ok_line::push_ok;
use crate::check::scanning::first_foreign;
use crate::check::warnings::push_warnings;
use crate::script::{Refusal, Setup, read_script};
use sab_refusal::syntax::{Place, Spot};
use std::alloc::{AllocError, Global};

/// What a check says of a script, in lines.
#[derive(Drop)]
pub enum Checked {
    /// The script isn't refused: a line of what it has, and one for each call that throws whenever it acts.
    Accepted(String),
    /// The script is refused: a line that says where and why.
    Refused(String),
}

/// Checks a script.
pub fn check_script(alloc: Global, script: &[u8]) -> Result<Checked, AllocError>
    ensures { IfOk result (IsChecked script.now) }
{
    match read_script(alloc, script) {
        Ok(setup) => Ok(Checked::Accepted(accepted(alloc, &setup)?)),
        Err(refusal) => {
            if refusal.is_memory() {
                return Err(AllocError);
            }
            Ok(Checked::Refused(refused(alloc, script, refusal)?))
        }
    }
}

/// What is said of a script that is refused.
fn refused(alloc: Global, script: &[u8], refusal: Refusal) -> Result<String, AllocError>
    ensures { IfOk result (λ text. Says script.now refusal (string_bytes text)) }
{
    match refusal {
        Refusal::NotJson(place) => no_json(alloc, script, place),
        Refusal::Tree(located) => format!(in alloc; "{located}\n"),
    }
}

/// What is said of a text that stops being JSON there.
#[tactic(auto, using(crate::proofs::OfCheck::Saying::says_foreign))]
fn no_json(alloc: Global, script: &[u8], place: Place) -> Result<String, AllocError>
    ensures { IfOk result (λ text.
        Says script.now (Refusal.NotJson place) (string_bytes text)) }
{
    let refusal = Refusal::NotJson(place);
    let Some(found) = first_foreign(script) else {
        return format!(in alloc; "{refusal}\n");
    };
    let spot = Spot::after(&script[..found.at]);
    if !spot.is_by(place.spot) {
        return format!(in alloc; "{refusal}\n");
    }
    let line = ForeignLine {
        spot,
        what: found.what,
    };
    format!(in alloc; "{line}\n")
}

/// What is said of a script that isn't refused.
fn accepted(alloc: Global, setup: &Setup) -> Result<String, AllocError>
    ensures { IfOk result (λ text. string_bytes text ≡ accepted_text setup.now) }
{
    let mut text = String::new(alloc);
    push_ok(&mut text, setup)?;
    push_warnings(&mut text, setup)?;
    Ok(text)
}
