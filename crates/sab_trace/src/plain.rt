//! Lines, from the tokens of their text, so that no tree is made.
//!
//! A `None` says that a member is there twice, that the line spells no event, or that there is no memory. Which of
//! these, and why, is found by the tree.

ghost use Rattle.std.specs.Prelude.{◌≡◌, [], ◌∷◌, List, IfSome};
ghost use Rattle.json.specs.Token.{Token as SpecToken, begin_object};
ghost use Rattle.serde_json.specs.Data.{Data};
ghost use Rattle.sab_trace.specs.Seen.{Says};
ghost use Rattle.sab_trace.specs.Spelling.{ReadsAs};
ghost use Rattle.sab_trace.specs.Tokens.{AreRead};

use crate::found::Found;
use crate::said::Said;
use json::{Reader, Scratch, Token};
use std::str;

/// The members of an object, up to its end.
fn scan_members(reader: &mut Reader<'_>) -> Option<Found>
    ensures { IfSome result (λ found. reader.new ≡ [] → AreRead reader.old found) }
{
    let mut found = Found::new();
    loop {
        match reader.next()? {
            Token::Key(name) => found.take(name, reader.next()?)?,
            Token::EndObject => return Some(found),
            _ => return None,
        }
    }
}

/// The members of the one object that a text is.
fn scan_object(reader: &mut Reader<'_>) -> Option<Found>
    ensures { IfSome result (λ found. (rest : List SpecToken) × (reader.old ≡ begin_object ∷ rest)
        × AreRead rest found) }
{
    let Token::BeginObject = reader.next()? else {
        return None;
    };
    let found = scan_members(reader)?;
    if reader.next().is_some() {
        return None;
    }
    Some(found)
}

/// What a line says.
pub(crate) fn plain_line(scratch: &mut Scratch, line: &[u8]) -> Option<Said>
    ensures { IfSome result (λ said. (tree : Data) × ReadsAs line.now tree × Says tree said) }
{
    let Ok(text) = str::from_utf8(line) else {
        return None;
    };
    let Ok(mut reader) = Reader::new(text, scratch) else {
        return None;
    };
    scan_object(&mut reader)?.said()
}
