//! What a text's tokens so far let come next.

ghost use Rattle.std.specs.Prelude.{◌≡◌, ◌<◌, ◌==◌, IsTrue, is_some, true, false, length, slice_index};
ghost use Rattle.serde_json.specs.Read.{number_from, float_of};
ghost use Rattle.sab_refusal.specs.Syntax.Number.{is_in_range};
ghost use Rattle.sab_refusal.specs.Syntax.Reader.{is_operator, is_white, ends_word, expected_of};

use crate::syntax::brackets::{Bracket, Brackets};
use crate::syntax::fault::{Expected, Fault};
use crate::syntax::literal::Literal;
use crate::syntax::number_part::NumberPart;
use crate::syntax::string_part::StringPart;
use fast_float::Numeral;

/// What can come next.
#[derive(Clone, Copy)]
pub(crate) enum Next {
    /// What an open bracket begins with, or the bracket that closes it.
    First,
    /// A value.
    Value,
    /// The name of a member.
    Name,
    /// The colon behind a name.
    Colon,
    /// A comma or the bracket that closes; behind the text's value nothing.
    After,
}

/// What the next byte is in.
#[derive(Clone, Copy)]
pub(crate) enum Inside {
    /// In no token.
    Nothing,
    /// In a string.
    String(StringPart),
    /// In a word.
    Literal(Literal),
    /// In a number.
    Number(NumberPart),
}

impl Inside {
    ghost use Rattle.sab_refusal.specs.Syntax.Reader.{inside_at};

    /// What the bytes of a word or a number are in that begins with a byte, if one does.
    fn at(byte: u8) -> Option<Inside>
        ensures { result ≡ inside_at byte }
    {
        match Literal::at(byte) {
            Some(literal) => Some(Inside::Literal(literal)),
            None => match NumberPart::at(byte) {
                Some(part) => Some(Inside::Number(part)),
                None => None,
            },
        }
    }
}

/// What is wrong, and with which token.
#[derive(Clone, Copy)]
pub(crate) enum Slip {
    /// With the token that the byte is in, or that it ends.
    Token(Fault),
    /// With the token that it begins.
    Byte(Fault),
}

/// How far a text has been read.
#[derive(Drop)]
pub(crate) struct Reader {
    /// What the next byte is in.
    pub inside: Inside,
    /// What can come behind that.
    pub next: Next,
    /// The brackets that are open.
    pub brackets: Brackets,
}

impl Reader {
    ghost use Rattle.std.specs.Prelude.{Ok, Err};
    ghost use Rattle.sab_refusal.specs.Syntax.Reader.{opening, takes_value, takes_name, Steps, step, begin};
    ghost use Rattle.sab_refusal.specs.Syntax.Reader.{begin_string};
    ghost use Rattle.sab_refusal.specs.Syntax.Reader.{begin_word, no_word, open_bracket, close_bracket, pass_comma};
    ghost use Rattle.sab_refusal.specs.Syntax.Reader.{pass_colon};
    ghost use Rattle.sab_refusal.specs.Syntax.Reader.{in_string, in_literal, in_number, by_operator, is_between};
    ghost use Rattle.sab_refusal.specs.Syntax.Reader.{is_in_string};

    /// Before a text.
    pub fn new() -> Reader
        ensures { result ≡ opening }
    {
        Reader {
            inside: Inside::Nothing,
            next: Next::Value,
            brackets: Brackets::new(),
        }
    }

    /// Whether the next byte is in no token.
    pub fn is_between(&self) -> bool
        ensures { result ≡ is_between self.now.inside }
    {
        matches!(self.inside, Inside::Nothing)
    }

    /// Whether the next byte is in a string.
    pub fn is_in_string(&self) -> bool
        ensures { result ≡ is_in_string self.now.inside }
    {
        matches!(self.inside, Inside::String(_))
    }

    /// Takes the next byte of a text. `token` has the bytes before it of the token that it is in.
    pub fn take(&mut self, token: &[u8], byte: u8) -> Result<(), Slip>
        ensures { Steps (step is_in_range self.old token.now byte) result self.new }
    {
        match self.inside {
            Inside::Nothing => self.begin(byte),
            Inside::String(part) => self.take_in_string(part, byte),
            Inside::Literal(literal) => self.take_in_literal(literal, token, byte),
            Inside::Number(part) => self.take_in_number(part, token, byte),
        }
    }

    fn take_in_string(&mut self, part: StringPart, byte: u8) -> Result<(), Slip>
        ensures { Steps (in_string self.old part byte) result self.new }
    {
        match part.behind(byte) {
            Ok(Some(part)) => {
                self.inside = Inside::String(part);
                Ok(())
            }
            Ok(None) => {
                self.inside = Inside::Nothing;
                Ok(())
            }
            Err(fault) => Err(Slip::Token(fault)),
        }
    }

    fn take_in_literal(&mut self, literal: Literal, token: &[u8], byte: u8) -> Result<(), Slip>
        ensures { Steps (in_literal self.old literal token.now byte) result self.new }
    {
        match literal.letters().get(token.len()) {
            Some(letter) if *letter == byte => Ok(()),
            None if ends_word(byte) => self.begin(byte),
            _ => Err(Slip::Token(Fault::Word)),
        }
    }

    fn take_in_number(&mut self, part: NumberPart, token: &[u8], byte: u8) -> Result<(), Slip>
        ensures { Steps (in_number is_in_range self.old part token.now byte) result self.new }
    {
        if !ends_word(byte) {
            let Some(part) = part.behind(byte) else {
                return Err(Slip::Token(Fault::Number));
            };
            self.inside = Inside::Number(part);
            return Ok(());
        }
        if !part.is_complete() {
            return Err(Slip::Token(Fault::Number));
        }
        if !is_in_range(token) {
            return Err(Slip::Token(Fault::TooLarge));
        }
        self.begin(byte)
    }

    /// Takes a byte that is in no token, or begins one.
    fn begin(&mut self, byte: u8) -> Result<(), Slip>
        ensures { Steps (begin self.old byte) result self.new }
    {
        self.inside = Inside::Nothing;
        if is_white(byte) {
            return Ok(());
        }
        if byte == b'"' {
            return self.begin_string();
        }
        if is_operator(byte) {
            return self.take_operator(byte);
        }
        self.begin_word(byte)
    }

    fn take_operator(&mut self, byte: u8) -> Result<(), Slip>
        ensures { Steps (by_operator self.old byte) result self.new }
    {
        match byte {
            b'[' => self.open_bracket(Bracket::Array),
            b'{' => self.open_bracket(Bracket::Object),
            b']' => self.close_bracket(Bracket::Array),
            b'}' => self.close_bracket(Bracket::Object),
            b',' => self.pass_comma(),
            _ => self.pass_colon(),
        }
    }

    /// Whether a value can come next.
    fn takes_value(&self) -> bool
        ensures { result ≡ takes_value self.now.next self.now.brackets }
    {
        match (self.next, self.brackets.last()) {
            (Next::Value, _) | (Next::First, Some(Bracket::Array)) => true,
            _ => false,
        }
    }

    /// Whether a name can come next.
    fn takes_name(&self) -> bool
        ensures { result ≡ takes_name self.now.next self.now.brackets }
    {
        match (self.next, self.brackets.last()) {
            (Next::Name | Next::First, Some(Bracket::Object)) => true,
            _ => false,
        }
    }

    fn begin_string(&mut self) -> Result<(), Slip>
        ensures { Steps (begin_string self.old) result self.new }
    {
        if self.takes_value() {
            self.next = Next::After;
        } else if self.takes_name() {
            self.next = Next::Colon;
        } else {
            return Err(self.unexpected());
        }
        self.inside = Inside::String(StringPart::Plain);
        Ok(())
    }

    fn begin_word(&mut self, byte: u8) -> Result<(), Slip>
        ensures { Steps (begin_word self.old byte) result self.new }
    {
        if !self.takes_value() {
            return Err(self.unexpected());
        }
        let Some(inside) = Inside::at(byte) else {
            return Err(self.no_word(byte));
        };
        self.next = Next::After;
        self.inside = inside;
        Ok(())
    }

    /// What is wrong with a word that begins with this byte, where a value can come next.
    fn no_word(&self, byte: u8) -> Slip
        ensures { result ≡ no_word self.now byte }
    {
        if byte.is_ascii_alphabetic() {
            Slip::Byte(Fault::Word)
        } else {
            self.unexpected()
        }
    }

    fn open_bracket(&mut self, bracket: Bracket) -> Result<(), Slip>
        ensures { Steps (open_bracket self.old bracket) result self.new }
    {
        if !self.takes_value() {
            return Err(self.unexpected());
        }
        if self.brackets.is_full() {
            return Err(Slip::Byte(Fault::TooDeep));
        }
        self.brackets.push(bracket);
        self.next = Next::First;
        Ok(())
    }

    fn close_bracket(&mut self, bracket: Bracket) -> Result<(), Slip>
        ensures { Steps (close_bracket self.old bracket) result self.new }
    {
        match (self.next, self.brackets.last()) {
            (Next::First | Next::After, Some(last)) if last.is_same(bracket) => {
                self.brackets.pop();
                self.next = Next::After;
                Ok(())
            }
            _ => Err(self.unexpected()),
        }
    }

    fn pass_comma(&mut self) -> Result<(), Slip>
        ensures { Steps (pass_comma self.old) result self.new }
    {
        match (self.next, self.brackets.last()) {
            (Next::After, Some(Bracket::Array)) => {
                self.next = Next::Value;
                Ok(())
            }
            (Next::After, Some(Bracket::Object)) => {
                self.next = Next::Name;
                Ok(())
            }
            _ => Err(self.unexpected()),
        }
    }

    fn pass_colon(&mut self) -> Result<(), Slip>
        ensures { Steps (pass_colon self.old) result self.new }
    {
        match self.next {
            Next::Colon => {
                self.next = Next::Value;
                Ok(())
            }
            _ => Err(self.unexpected()),
        }
    }

    /// What is wrong with a token that can't come next.
    fn unexpected(&self) -> Slip
        ensures { result ≡ Slip.Byte (Fault.Unexpected (expected_of self.now.next self.now.brackets)) }
    {
        Slip::Byte(Fault::Unexpected(expected(self.next, self.brackets.last())))
    }
}

ghost use Rattle.sab_refusal.specs.Syntax.Reader.{expected_by};

/// What can come next, by the innermost bracket that is open.
fn expected(next: Next, last: Option<Bracket>) -> Expected
    ensures { result ≡ expected_by next last }
{
    match (next, last) {
        (Next::Value, _) => Expected::Value,
        (Next::Name, _) => Expected::Name,
        (Next::Colon, _) => Expected::Colon,
        (Next::First, Some(Bracket::Object)) => Expected::NameOrBrace,
        (Next::First, _) => Expected::ValueOrBracket,
        (Next::After, Some(Bracket::Array)) => Expected::CommaOrBracket,
        (Next::After, Some(Bracket::Object)) => Expected::CommaOrBrace,
        (Next::After, None) => Expected::End,
    }
}

/// Whether a byte is a bracket, a comma or a colon.
fn is_operator(byte: u8) -> bool
    ensures { result ≡ is_operator byte }
{
    byte == b'{' || byte == b'}' || byte == b'[' || byte == b']' || byte == b':' || byte == b','
}

/// Whether a byte is a space, a tab or a line end.
fn is_white(byte: u8) -> bool
    ensures { result ≡ is_white byte }
{
    byte == b' ' || byte == b'\t' || byte == b'\n' || byte == b'\r'
}

/// Whether no word and no number goes on with a byte.
fn ends_word(byte: u8) -> bool
    ensures { result ≡ ends_word byte }
{
    is_operator(byte) || is_white(byte) || byte == b'"'
}

/// Whether a number's text begins with a minus.
fn has_minus(number: &[u8]) -> bool
    ensures value { result ≡ (slice_index number.now 0 == 45) }
    ensures len { IsTrue result → 0 < length number.now }
{
    !number.is_empty() && number[0] == b'-'
}

/// Whether a number of JSON is one that is read.
fn is_in_range(number: &[u8]) -> bool
    ensures { result ≡ is_in_range number.now }
{
    if has_minus(number) {
        is_negative_in_range(&Numeral::scan(&number[1..]))
    } else {
        is_positive_in_range(&Numeral::scan(number))
    }
}

fn is_positive_in_range(numeral: &Numeral<'_>) -> bool
    ensures { result ≡ is_some (number_from false numeral.now) }
{
    match numeral.to_u64() {
        Some(_) => true,
        None => is_finite(numeral, false),
    }
}

fn is_negative_in_range(numeral: &Numeral<'_>) -> bool
    ensures { result ≡ is_some (number_from true numeral.now) }
{
    if let Some(n) = numeral.to_i64(true) {
        if n < 0 {
            return true;
        }
    }
    is_finite(numeral, true)
}

fn is_finite(numeral: &Numeral<'_>, is_negative: bool) -> bool
    ensures { result ≡ is_some (float_of is_negative numeral.now) }
{
    numeral.to_float::<f64>(is_negative).is_finite()
}
