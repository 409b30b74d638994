//! What stands in texts and isn't JSON.

ghost use Rattle.std.specs.Prelude.{◌≡◌, not, find};
ghost use Rattle.sab_reader.specs.Check.Foreign.{foreign_at, is_word_byte, is_white, begins_word, comma_before};

use std::fmt;

/// What people write in a text that JSON hasn't.
#[derive(Clone, Copy)]
pub(crate) enum Foreign {
    /// The word `NaN`.
    Nan,
    /// The word `Infinity`, with the sign before it where it has one.
    Infinity,
    /// The word `undefined`.
    Undefined,
    /// A comment, from `//` or `/*` on.
    Comment,
    /// A quote of a string in single quotes.
    SingleQuote,
    /// A byte order mark.
    Mark,
    /// A comma before a closing bracket.
    CommaBeforeBracket,
    /// A comma before a closing brace.
    CommaBeforeBrace,
}

impl Foreign {
    /// What a text begins with that JSON hasn't, outside of strings.
    pub fn of(text: &[u8]) -> Option<Foreign>
        ensures { result ≡ foreign_at text.now }
    {
        if begins_word(text, b"NaN") {
            return Some(Foreign::Nan);
        }
        if begins_word(text, b"Infinity") || begins_word(text, b"-Infinity") {
            return Some(Foreign::Infinity);
        }
        if begins_word(text, b"undefined") {
            return Some(Foreign::Undefined);
        }
        if text.starts_with(b"//") || text.starts_with(b"/*") {
            return Some(Foreign::Comment);
        }
        if text.starts_with(b"'") {
            return Some(Foreign::SingleQuote);
        }
        if text.starts_with(b"\xef\xbb\xbf") {
            return Some(Foreign::Mark);
        }
        comma_before(text)
    }
}

/// Whether a text begins with a word, and no letter, digit, low line or dollar sign stands behind it.
fn begins_word(text: &[u8], word: &[u8]) -> bool
    ensures { result ≡ begins_word word.now text.now }
{
    text.starts_with(word)
        && match text.get(word.len()) {
            Some(byte) => !is_word_byte(*byte),
            None => true,
        }
}

/// Whether a byte is a letter, a digit, a low line or a dollar sign.
fn is_word_byte(byte: u8) -> bool
    ensures { result ≡ is_word_byte byte }
{
    byte.is_ascii_alphanumeric() || byte == b'_' || byte == b'$'
}

/// Whether JSON has the byte between its parts.
fn is_white(byte: u8) -> bool
    ensures { result ≡ is_white byte }
{
    byte == b' ' || byte == b'\t' || byte == b'\n' || byte == b'\r'
}

/// The comma that a text begins with, where a closing bracket or brace is next.
fn comma_before(text: &[u8]) -> Option<Foreign>
    ensures { result ≡ comma_before text.now }
{
    let Some((b',', rest)) = text.split_first() else {
        return None;
    };
    match first_other(rest) {
        Some(b']') => Some(Foreign::CommaBeforeBracket),
        Some(b'}') => Some(Foreign::CommaBeforeBrace),
        _ => None,
    }
}

/// The first byte that JSON hasn't between its parts.
#[tactic(auto, using(crate::proofs::OfCheck::Walk::found_other, crate::proofs::OfCheck::Walk::found_white, crate::proofs::OfCheck::Walk::found_no_other))]
fn first_other(text: &[u8]) -> Option<u8>
    ensures { result ≡ find (λ b. not (is_white b)) text.now }
{
    for byte in text {
        if !is_white(*byte) {
            return Some(*byte);
        }
    }
    None
}

impl fmt::Display for Foreign {
    ghost use Rattle.std.specs.Prelude.{Some};
    ghost use Rattle.sab_reader.specs.Check.Foreign.{foreign_text};

    ghost output = { λ foreign. Some (foreign_text foreign) };

    fn fmt<W: fmt::Write>(&self, f: &mut fmt::Formatter<W>) -> fmt::Result {
        f.write_str(match self {
            Foreign::Nan => "JSON has no NaN",
            Foreign::Infinity => "JSON has no Infinity",
            Foreign::Undefined => "JSON has no undefined",
            Foreign::Comment => "JSON has no comments",
            Foreign::SingleQuote => "JSON has no strings in single quotes",
            Foreign::Mark => "JSON has no byte order mark",
            Foreign::CommaBeforeBracket => "a comma before ]: JSON has no trailing commas",
            Foreign::CommaBeforeBrace => "a comma before }: JSON has no trailing commas",
        })
    }
}
