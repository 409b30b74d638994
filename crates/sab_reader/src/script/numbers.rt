//! Numbers that aren't whole numbers of a script.

ghost use Rattle.std.specs.Prelude.{◌≡◌, ℕ, ℤ, List, Some, IsTrue};
ghost use Rattle.std.specs.Float.{float_is_finite};
ghost use Rattle.serde_json.specs.Data.{float, number as number_data};
ghost use Rattle.serde_json.specs.Read.{number_of};
ghost use Rattle.serde_json.specs.View.{number_view};
ghost use Rattle.sab_refusal.specs.Reason.{fault_of};
ghost use Rattle.sab_reader.specs.Script.Numbers.{SpellsWhole};
ghost use Rattle.sab_reader.specs.Script.Places.{CallsFor};
ghost use Rattle.sab_reader.specs.Script.Truth.{IsStart, IsAmiss, IsTrueWhere};
ghost use Rattle.sab_reader.specs.Script.Known.{IsNumberAs};

use sab_block::Operand;
use sab_refusal::{Excerpt, Located, Location, ReadFault, Reason, Wanted};
use serde_json::Number;
use std::num::{nearest_i64_to_f64, saturating_f64_to_i64};

/// The start of a text that spells the float, as JSON reads it: all of it, since none is longer than 25 bytes.
fn spelled(x: f64) -> Excerpt
    requires { IsTrue (float_is_finite x) }
    ensures { (text : List ℕ) × (number_of text ≡ Some (float x)) × IsStart result text }
{
    let mut buffer = ryu::Buffer::new();
    Excerpt::of(buffer.format_finite_with_plus(x))
}

/// Why a float isn't a whole number of a script.
fn float_amiss(x: f64) -> Reason
    requires { IsTrue (float_is_finite x) }
    ensures fault { fault_of result ≡ ReadFault.BadNumber }
    ensures amiss { IsAmiss (float x) result }
{
    let n = saturating_f64_to_i64(x);
    if n < -Operand::MAX_SAFE_INTEGER || Operand::MAX_SAFE_INTEGER < n {
        return Reason::TooFar;
    }
    if x != nearest_i64_to_f64(n) {
        return Reason::Fraction(spelled(x));
    }
    if n == 0 && x.is_sign_negative() {
        return Reason::MinusZero;
    }
    Reason::PointOrExponent(n)
}

/// Why a number isn't a whole number of a script. JSON has no other float than a finite one.
pub fn number_amiss(number: &Number) -> Reason
    requires { (z : ℤ) → SpellsWhole (number_data (number_view number.now)) z → ⊥ }
    ensures fault { fault_of result ≡ ReadFault.BadNumber }
    ensures amiss { IsAmiss (number_view number.now) result }
{
    match number.as_f64() {
        Some(x) if number.is_f64() && x.is_finite() => float_amiss(x),
        _ => Reason::TooFar,
    }
}

/// A refusal of a number that isn't a whole number of a script, where `wanted` is called for.
#[tactic(auto, using(crate::proofs::OfScript::Amiss::amiss_reported))]
pub(crate) fn no_whole(at: Location, wanted: Wanted, number: &Number) -> Located
    requires { (z : ℤ) → SpellsWhole (number_data (number_view number.now)) z → ⊥ }
    ensures fault { fault_of result.why ≡ ReadFault.BadNumber }
    ensures place { result.at ≡ at }
    ensures reported { IsTrueWhere at (number_data (number_view number.now))
        (λ root. CallsFor root at wanted × IsNumberAs wanted (number_data (number_view number.now))) result }
{
    let why = number_amiss(number);
    Located { at, why }
}
