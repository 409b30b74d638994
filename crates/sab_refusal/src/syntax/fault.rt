//! What is wrong with a token.

use std::fmt;

/// What can come next in a text.
#[derive(Clone, Copy, Debug)]
pub enum Expected {
    /// A value.
    Value,
    /// An array's first value, or the bracket that closes it.
    ValueOrBracket,
    /// The name of a member.
    Name,
    /// The name of an object's first member, or the brace that closes it.
    NameOrBrace,
    /// The colon behind a name.
    Colon,
    /// A comma, or the bracket that closes the array.
    CommaOrBracket,
    /// A comma, or the brace that closes the object.
    CommaOrBrace,
    /// The end of the text.
    End,
}

/// What is wrong with a token.
#[derive(Clone, Copy, Debug)]
pub enum Fault {
    /// It can't come here, but this can.
    Unexpected(Expected),
    /// It is a word, and none that JSON has.
    Word,
    /// It begins as a number does, and is none of JSON.
    Number,
    /// It is a number of JSON that is too large to be read.
    TooLarge,
    /// It is an opening bracket with as many around it as can be read.
    TooDeep,
    /// It is a string with a control character, such as a line feed.
    Control,
    /// It is a string with a backslash and none of what JSON has behind it.
    Escape,
    /// It is a string with half a surrogate pair.
    Surrogate,
    /// It is a string with bytes that aren't UTF-8.
    NotUtf8,
}

impl fmt::Display for Expected {
    ghost use Rattle.std.specs.Prelude.{Some};
    ghost use Rattle.sab_refusal.specs.Syntax.Fault.{expected_text};

    ghost output = { λ expected. Some (expected_text expected) };

    fn fmt<W: fmt::Write>(&self, f: &mut fmt::Formatter<W>) -> fmt::Result {
        f.write_str(match self {
            Expected::Value => "a value",
            Expected::ValueOrBracket => "a value or ]",
            Expected::Name => "a name in double quotes",
            Expected::NameOrBrace => "a name in double quotes or }",
            Expected::Colon => "a colon",
            Expected::CommaOrBracket => "a comma or ]",
            Expected::CommaOrBrace => "a comma or }",
            Expected::End => "the end of the text",
        })
    }
}

impl fmt::Display for Fault {
    ghost use Rattle.std.specs.Prelude.{Some};
    ghost use Rattle.sab_refusal.specs.Syntax.Fault.{fault_text};

    ghost output = { λ fault. Some (fault_text fault) };

    fn fmt<W: fmt::Write>(&self, f: &mut fmt::Formatter<W>) -> fmt::Result {
        match self {
            Fault::Unexpected(expected) => write!(f, "expected {expected}"),
            Fault::Word => f.write_str("JSON has no words but true, false and null"),
            Fault::Number => f.write_str("no number of JSON"),
            Fault::TooLarge => f.write_str("is JSON, but isn't read: the number is too large"),
            Fault::TooDeep => {
                f.write_str("is JSON, but isn't read: more than 127 brackets are open")
            }
            Fault::Control => f.write_str("a string has a line end or another control character"),
            Fault::Escape => f.write_str("a string has a backslash and no escape of JSON"),
            Fault::Surrogate => {
                f.write_str("is JSON, but isn't read: a string has half a surrogate pair")
            }
            Fault::NotUtf8 => f.write_str("a string has bytes that aren't UTF-8"),
        }
    }
}
