//! The first thing outside of a text's strings that JSON hasn't.

ghost use Rattle.std.specs.Prelude.{◌≡◌, ◌<◌, length, IfSome};
ghost use Rattle.sab_reader.specs.Check.Foreign.{side_behind, foreign_on, FindsFirst};

use crate::check::foreign::Foreign;

/// Where a byte stands, as JSON's strings go.
#[derive(Clone, Copy)]
pub(crate) enum Side {
    /// Outside of strings, as a string's first quote does.
    Outside,
    /// In a string, as its last quote does.
    Inside,
    /// In a string, right behind a backslash that escapes it.
    Escaped,
}

impl Side {
    /// Where the next byte stands.
    fn behind(self, byte: u8) -> Side
        ensures { result ≡ side_behind self byte }
    {
        match (self, byte) {
            (Side::Outside, b'"') => Side::Inside,
            (Side::Outside, _) => Side::Outside,
            (Side::Inside, b'"') => Side::Outside,
            (Side::Inside, b'\\') => Side::Escaped,
            (Side::Inside, _) => Side::Inside,
            (Side::Escaped, _) => Side::Inside,
        }
    }
}

/// What JSON hasn't, and how many bytes stand before it.
#[derive(Clone, Copy)]
pub(crate) struct ForeignAt {
    /// How many bytes stand before it.
    pub at: usize,
    /// What it is.
    pub what: Foreign,
}

/// The first thing outside of a text's strings that JSON hasn't.
#[tactic(auto, using(crate::proofs::OfCheck::Walk::found_here, crate::proofs::OfCheck::Walk::none_here, crate::proofs::OfCheck::Walk::none_at_all, crate::proofs::OfCheck::Walk::next_side))]
pub(crate) fn first_foreign(text: &[u8]) -> Option<ForeignAt>
    ensures first { FindsFirst text.now result }
    ensures within { IfSome result (λ found. found.at < length text.now) }
{
    let mut side = Side::Outside;
    for (at, byte) in text.iter().enumerate() {
        if let Some(what) = foreign_on(side, &text[at..]) {
            return Some(ForeignAt { at, what });
        }
        side = side.behind(*byte);
    }
    None
}

/// What a text begins with that JSON hasn't, where that stands outside of strings.
fn foreign_on(side: Side, text: &[u8]) -> Option<Foreign>
    ensures { result ≡ foreign_on side text.now }
{
    match side {
        Side::Outside => Foreign::of(text),
        Side::Inside | Side::Escaped => None,
    }
}
