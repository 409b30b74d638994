//! The place where a text stops being JSON.

ghost use Rattle.std.specs.Prelude.{◌≡◌, ℕ, ◌≤◌, ◌&&◌, length};
ghost use Rattle.sab_refusal.specs.Syntax.Reader.{is_in_string};
ghost use Rattle.sab_refusal.specs.Syntax.Stop.{broken_of, stop_of, stop_at, IsWithin};
ghost use Rattle.sab_refusal.specs.Syntax.Begins.{StopsAt};

use crate::syntax::fault::Fault;
use crate::syntax::reader::{Reader, Slip};

/// Where a text stops being JSON.
#[derive(Clone, Copy, Debug)]
pub enum Stop {
    /// At a token.
    Token {
        /// How many bytes are before it.
        at: usize,
        /// What is wrong with it.
        fault: Fault,
    },
    /// At its end: a text that is read begins so.
    End,
}

/// Where a text stops being JSON.
///
/// It is at the first token that is broken: no text that is read begins with everything up to the token's end. A word
/// or a number with a byte behind it is judged as a whole, and a string from its first quote on. A word or a number at
/// the end of the text is judged by what it can become. If no token is broken, the text ends too early.
#[tactic(auto, using(crate::proofs::OfSyntax::Walking::stop_stops))]
pub fn stop_of(text: &[u8]) -> Stop
    ensures place { result ≡ stop_of text.now }
    ensures within { IsWithin (length text.now) result }
    ensures stops { StopsAt text.now result }
{
    walk(text)
}

/// The same, by a reader of the text's bytes.
fn walk(text: &[u8]) -> Stop
    ensures place { result ≡ stop_of text.now }
    ensures within { IsWithin (length text.now) result }
{
    let broken = broken_at(text);
    let mut reader = Reader::new();
    let mut start = 0;
    'bytes: for (at, byte) in text.iter().enumerate() {
        if breaks(broken, at, &reader) {
            return Stop::Token {
                at: start,
                fault: Fault::NotUtf8,
            };
        }
        match reader.take(&text[start..at], *byte) {
            Ok(()) => {}
            Err(slip) => return stop_at(slip, start, at),
        }
        if reader.is_between() {
            start = at + 1;
        }
    }
    Stop::End
}

/// Whether a string has bytes at a place of which no character begins.
fn breaks(broken: Option<usize>, at: usize, reader: &Reader) -> bool
    ensures { result ≡ (is_place broken at && is_in_string reader.now.inside) }
{
    is_place(broken, at) && reader.is_in_string()
}

/// The place of a slip, by where its token and its byte are.
fn stop_at(slip: Slip, start: usize, at: usize) -> Stop
    ensures place { result ≡ stop_at slip start at }
    ensures within { (n : ℕ) → start ≤ n → at ≤ n → IsWithin n result }
{
    match slip {
        Slip::Token(fault) => Stop::Token { at: start, fault },
        Slip::Byte(fault) => Stop::Token { at, fault },
    }
}

ghost use Rattle.sab_refusal.specs.Syntax.Stop.{is_place};

/// Whether a place is there, and is this one.
fn is_place(place: Option<usize>, at: usize) -> bool
    ensures { result ≡ is_place place at }
{
    match place {
        Some(place) => place == at,
        None => false,
    }
}

/// How many bytes are before those of which no character begins, if there are such.
///
/// The string that has them is broken, so its first quote is the place.
fn broken_at(text: &[u8]) -> Option<usize>
    ensures { result ≡ broken_of text.now }
{
    match std::str::from_utf8(text) {
        Ok(_) => None,
        Err(error) => match error.error_len() {
            Some(_) => Some(error.valid_up_to()),
            None => None,
        },
    }
}
