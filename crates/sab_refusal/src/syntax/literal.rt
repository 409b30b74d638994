//! The words of JSON.

/// A word of JSON.
#[derive(Clone, Copy)]
pub(crate) enum Literal {
    /// `true`.
    True,
    /// `false`.
    False,
    /// `null`.
    Null,
}

impl Literal {
    ghost use Rattle.std.specs.Prelude.{◌≡◌};
    ghost use Rattle.sab_refusal.specs.Syntax.Literal.{letters_of, literal_at};

    /// Its letters.
    pub fn letters(self) -> &'static [u8]
        ensures { result.now ≡ letters_of self }
    {
        match self {
            Literal::True => b"true",
            Literal::False => b"false",
            Literal::Null => b"null",
        }
    }

    /// The one that begins with a letter.
    pub fn at(letter: u8) -> Option<Literal>
        ensures { result ≡ literal_at letter }
    {
        match letter {
            b't' => Some(Literal::True),
            b'f' => Some(Literal::False),
            b'n' => Some(Literal::Null),
            _ => None,
        }
    }
}
