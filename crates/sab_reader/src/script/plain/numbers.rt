//! Whole numbers, from their tokens.

ghost use Rattle.std.specs.Prelude.{◌≡◌, ◌<◌, ◌==◌, true, false, Some, IfSome, IsTrue, length, slice_index};
ghost use Rattle.serde_json.specs.Find.{of_integer};
ghost use Rattle.serde_json.specs.Read.{number_of, number_from};
ghost use Rattle.sab_block.specs.Operand.{IsSafeInteger};
ghost use Rattle.sab_reader.specs.Script.Numbers.{SpellsWhole, SpellsPosition};
ghost use Rattle.sab_reader.specs.Script.Plain.{HoldsTree};

use fast_float::Numeral;
use json::Element;
use sab_block::Operand;

/// The whole number from 0 to 2^53 - 1 that a numeral writes; `None` where it writes another.
fn not_below_zero(numeral: &Numeral<'_>) -> Option<i64>
    ensures { IfSome result (λ z. (number_from false numeral.now ≡ Some (of_integer z)) × IsSafeInteger z) }
{
    let n = numeral.to_u64()?;
    if n <= Operand::MAX_SAFE_INTEGER as u64 {
        Some(n as i64)
    } else {
        None
    }
}

/// The whole number from -(2^53 - 1) to -1 that a numeral behind a minus writes; `None` where it writes another, as
/// `-0`.
fn below_zero(numeral: &Numeral<'_>) -> Option<i64>
    ensures { IfSome result (λ z. (number_from true numeral.now ≡ Some (of_integer z)) × IsSafeInteger z) }
{
    let n = numeral.to_i64(true)?;
    if n < 0 && -Operand::MAX_SAFE_INTEGER <= n {
        Some(n)
    } else {
        None
    }
}

/// The whole number within ±(2^53 - 1) that a number of JSON is, by its text; `None` where it is none, as `-0`.
fn safe_integer(text: &str) -> Option<i64>
    ensures { IfSome result (λ z. (number_of text.now ≡ Some (of_integer z)) × IsSafeInteger z) }
{
    let bytes = text.as_bytes();
    if has_minus(bytes) {
        below_zero(&Numeral::scan(&bytes[1..]))
    } else {
        not_below_zero(&Numeral::scan(bytes))
    }
}

/// Whether a number's text begins with a minus.
fn has_minus(text: &[u8]) -> bool
    ensures value { result ≡ (slice_index text.now 0 == 45) }
    ensures len { IsTrue result → 0 < length text.now }
{
    !text.is_empty() && text[0] == b'-'
}

/// A whole number; `None` where it is none.
pub(crate) fn scan_whole(element: &Element<'_, '_>) -> Option<i64>
    ensures { IfSome result (λ z. HoldsTree 0 (λ d. SpellsWhole d z) element.now) }
{
    safe_integer(element.as_number()?)
}

/// The position of one of so many; `None` where it is none.
pub(crate) fn scan_position(count: u32, element: &Element<'_, '_>) -> Option<u32>
    ensures reported { IfSome result (λ n. HoldsTree 0 (λ d. SpellsPosition count d n) element.now) }
    ensures there { IfSome result (λ n. n < count) }
{
    let n = scan_whole(element)?;
    if 0 <= n && n < i64::from(count) {
        Some(n as u32)
    } else {
        None
    }
}
