//! How far a string has come.

use crate::syntax::fault::Fault;

/// What a string's next byte belongs to.
///
/// An escape of four digits is a code unit of UTF-16. The first of a surrogate pair is from d800 to dbff; the second
/// has to be behind it, and is from dc00 to dfff.
#[derive(Clone, Copy)]
pub(crate) enum StringPart {
    /// The text itself.
    Plain,
    /// What is behind a backslash.
    Escape,
    /// A unit's first digit.
    First,
    /// Its second one; whether the first is a d.
    Second(bool),
    /// Its third one; whether the unit is the first of a pair.
    Third(bool),
    /// Its fourth one.
    Fourth(bool),
    /// The backslash of the second unit of a pair.
    Pair,
    /// Its u.
    PairEscape,
    /// Its first digit, which is a d.
    PairFirst,
    /// Its second one, which is c to f.
    PairSecond,
    /// Its third one.
    PairThird,
    /// Its fourth one.
    PairFourth,
}

impl StringPart {
    ghost use Rattle.std.specs.Prelude.{◌≡◌};
    ghost use Rattle.sab_refusal.specs.Syntax.String.{string_behind};

    /// What the byte behind this one belongs to; none if this one ends the string.
    pub fn behind(self, byte: u8) -> Result<Option<StringPart>, Fault>
        ensures { result ≡ string_behind self byte }
    {
        match self {
            StringPart::Plain => plain(byte),
            StringPart::Escape => escape(byte),
            StringPart::First => digit(byte, StringPart::Second(byte == b'd' || byte == b'D')),
            StringPart::Second(false) => digit(byte, StringPart::Third(false)),
            StringPart::Second(true) => surrogate(byte),
            StringPart::Third(is_first) => digit(byte, StringPart::Fourth(is_first)),
            StringPart::Fourth(false) => digit(byte, StringPart::Plain),
            StringPart::Fourth(true) => digit(byte, StringPart::Pair),
            StringPart::Pair => pair(byte, b'\\', StringPart::PairEscape),
            StringPart::PairEscape => pair(byte, b'u', StringPart::PairFirst),
            StringPart::PairFirst => {
                second(byte, byte == b'd' || byte == b'D', StringPart::PairSecond)
            }
            StringPart::PairSecond => second(byte, is_from_c(byte), StringPart::PairThird),
            StringPart::PairThird => digit(byte, StringPart::PairFourth),
            StringPart::PairFourth => digit(byte, StringPart::Plain),
        }
    }
}

ghost use Rattle.std.specs.Prelude.{◌≡◌};
ghost use Rattle.sab_refusal.specs.Syntax.String.{plain_to, escape_to, is_escape, is_hex, is_from_c, digit_to};
ghost use Rattle.sab_refusal.specs.Syntax.String.{surrogate_to};
ghost use Rattle.sab_refusal.specs.Syntax.String.{pair_to, second_to};

/// Behind a byte of the text itself.
fn plain(byte: u8) -> Result<Option<StringPart>, Fault>
    ensures { result ≡ plain_to byte }
{
    if byte == b'"' {
        return Ok(None);
    }
    if byte == b'\\' {
        return Ok(Some(StringPart::Escape));
    }
    if byte < 32 {
        return Err(Fault::Control);
    }
    Ok(Some(StringPart::Plain))
}

/// Whether a byte is an escape by itself.
fn is_escape(byte: u8) -> bool
    ensures { result ≡ is_escape byte }
{
    byte == b'"'
        || byte == b'\\'
        || byte == b'/'
        || byte == b'b'
        || byte == b'f'
        || byte == b'n'
        || byte == b'r'
        || byte == b't'
}

/// Behind a byte that is behind a backslash.
fn escape(byte: u8) -> Result<Option<StringPart>, Fault>
    ensures { result ≡ escape_to byte }
{
    if byte == b'u' {
        return Ok(Some(StringPart::First));
    }
    if is_escape(byte) {
        return Ok(Some(StringPart::Plain));
    }
    Err(Fault::Escape)
}

/// Whether a byte is a hexadecimal digit.
fn is_hex(byte: u8) -> bool
    ensures { result ≡ is_hex byte }
{
    byte.is_ascii_digit() || (b'a' <= byte && byte <= b'f') || (b'A' <= byte && byte <= b'F')
}

/// Whether a byte is a hexadecimal digit from c on.
fn is_from_c(byte: u8) -> bool
    ensures { result ≡ is_from_c byte }
{
    (b'c' <= byte && byte <= b'f') || (b'C' <= byte && byte <= b'F')
}

/// What is behind a digit.
fn digit(byte: u8, part: StringPart) -> Result<Option<StringPart>, Fault>
    ensures { result ≡ digit_to byte part }
{
    if is_hex(byte) {
        Ok(Some(part))
    } else {
        Err(Fault::Escape)
    }
}

/// Behind the second digit of a unit whose first is a d. From 8 on the unit is the first of a pair; from c on it is the
/// second, and can't come here.
fn surrogate(byte: u8) -> Result<Option<StringPart>, Fault>
    ensures { result ≡ surrogate_to byte }
{
    if is_from_c(byte) {
        return Err(Fault::Surrogate);
    }
    digit(byte, StringPart::Third(b'8' <= byte))
}

/// What is behind the one byte that can be behind the first unit of a pair.
fn pair(byte: u8, wanted: u8, part: StringPart) -> Result<Option<StringPart>, Fault>
    ensures { result ≡ pair_to byte wanted part }
{
    if byte == wanted {
        Ok(Some(part))
    } else {
        Err(Fault::Surrogate)
    }
}

/// What is behind a digit that has to be one of the second unit of a pair.
fn second(byte: u8, is_second: bool, part: StringPart) -> Result<Option<StringPart>, Fault>
    ensures { result ≡ second_to byte is_second part }
{
    if is_second {
        Ok(Some(part))
    } else if is_hex(byte) {
        Err(Fault::Surrogate)
    } else {
        Err(Fault::Escape)
    }
}
