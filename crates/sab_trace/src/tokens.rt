//! Values of an event's members, from their tokens.

ghost use Rattle.std.specs.Prelude.{◌≡◌, ◌<◌, ◌==◌, ℕ, List, Option, true, false, Some, IfSome, IsTrue, length};
ghost use Rattle.std.specs.Prelude.{slice_index};
ghost use Rattle.json.specs.Reads.{token_of};
ghost use Rattle.serde_json.specs.Data.{boolean, string};
ghost use Rattle.serde_json.specs.Find.{of_integer};
ghost use Rattle.serde_json.specs.Read.{number_of, number_from};
ghost use Rattle.sab_trace.specs.Deeds.{word_of};
ghost use Rattle.sab_trace.specs.Members.{source_data};
ghost use Rattle.sab_trace.specs.Tokens.{ReadsTo, whole as whole_data};

use crate::deed::Deed;
use fast_float::Numeral;
use json::Token;

/// The largest number of 64 bits with a sign.
const MAX: u64 = 0x7fff_ffff_ffff_ffff;

/// The whole number that a numeral writes; `None` if it writes no such number from 0 to 2^63 - 1.
fn not_below_zero(numeral: &Numeral<'_>) -> Option<i64>
    ensures { IfSome result (λ z. number_from false numeral.now ≡ Some (of_integer z)) }
{
    let n = numeral.to_u64()?;
    if n <= MAX { Some(n as i64) } else { None }
}

/// The whole number that a numeral behind a minus writes; `None` if it writes no such number from -2^63 to -1, as `-0`.
fn below_zero(numeral: &Numeral<'_>) -> Option<i64>
    ensures { IfSome result (λ z. number_from true numeral.now ≡ Some (of_integer z)) }
{
    let n = numeral.to_i64(true)?;
    if n < 0 { Some(n) } else { None }
}

/// Whether a number's text begins with a minus.
fn has_minus(text: &[u8]) -> bool
    ensures value { result ≡ (slice_index text.now 0 == 45) }
    ensures len { IsTrue result → 0 < length text.now }
{
    !text.is_empty() && text[0] == b'-'
}

/// The whole number that a number of JSON is, by its text; `None` if it is none of 64 bits, as `-0`.
fn integer(text: &str) -> Option<i64>
    ensures { IfSome result (λ z. number_of text.now ≡ Some (of_integer z)) }
{
    let bytes = text.as_bytes();
    if has_minus(bytes) {
        below_zero(&Numeral::scan(&bytes[1..]))
    } else {
        not_below_zero(&Numeral::scan(bytes))
    }
}

/// The whole number that a token is; `None` if it is none of 64 bits.
pub(crate) fn whole(token: Token<'_>) -> Option<i64>
    ensures { IfSome result (λ z. ReadsTo (token_of token.entry) (whole_data z)) }
{
    match token {
        Token::Number(text) => integer(text),
        _ => None,
    }
}

/// `true` or `false`; `None` if the token is neither.
pub(crate) fn flag(token: Token<'_>) -> Option<bool>
    ensures { IfSome result (λ b. ReadsTo (token_of token.entry) (boolean b)) }
{
    match token {
        Token::Bool(flag) => Some(flag),
        _ => None,
    }
}

/// What a token says that the event does; `None` if it says no such thing.
pub(crate) fn deed(token: Token<'_>) -> Option<Deed>
    ensures { IfSome result (λ deed. ReadsTo (token_of token.entry) (string (word_of deed))) }
{
    match token {
        Token::String(word) => Deed::of(word),
        _ => None,
    }
}

/// That a token is a source, or says that none is known; else `None`.
pub(crate) fn source(token: Token<'_>) -> Option<()>
    ensures { IfSome result (λ _. (source : Option (List ℕ)) × ReadsTo (token_of token.entry) (source_data source)) }
{
    match token {
        Token::Null | Token::String(_) => Some(()),
        _ => None,
    }
}
