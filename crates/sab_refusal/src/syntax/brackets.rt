//! The brackets that are open.

use std::marker::Model;

/// An opening bracket.
#[derive(Clone, Copy)]
pub(crate) enum Bracket {
    /// `[`.
    Array,
    /// `{`.
    Object,
}

impl Bracket {
    ghost use Rattle.std.specs.Prelude.{◌≡◌};
    ghost use Rattle.sab_refusal.specs.Syntax.Brackets.{same_bracket};

    /// Whether the two are alike.
    pub fn is_same(self, other: Bracket) -> bool
        ensures { result ≡ same_bracket self other }
    {
        match (self, other) {
            (Bracket::Array, Bracket::Array) | (Bracket::Object, Bracket::Object) => true,
            _ => false,
        }
    }
}

/// The brackets that are open, at most 127 of them.
#[derive(Drop)]
pub(crate) struct Brackets {
    brackets: [Bracket; Brackets::ROOM],
    len: usize,
}

impl Model for Brackets {
    ghost use Rattle.std.specs.Prelude.{◌≡◌, ℕ, List, length, take, reverse, ◌≤◌};
    ghost use Rattle.sab_refusal.specs.declared.syntax.brackets.Bracket.{Bracket};
    ghost use Rattle.sab_refusal.specs.declared.syntax.brackets.TheConstants.Brackets.{ROOM};

    ghost Value = { List Bracket };

    ghost view = { λ s. reverse (take s.len s.brackets) };

    ghost invariant = { λ s. (s.len ≤ ROOM) × (length s.brackets ≡ ROOM) };
}

impl Brackets {
    ghost use Rattle.std.specs.Prelude.{◌≡◌, ◌<◌, ◌≤◌, ◌==◌, ◌∷◌, [], length, drop};
    ghost use Rattle.sab_refusal.specs.Syntax.Brackets.{innermost};

    /// How many can be open.
    pub const ROOM: usize = 127;

    /// None.
    pub fn new() -> Brackets
        ensures { result ≡ [] }
    {
        Brackets {
            brackets: [Bracket::Array; Self::ROOM],
            len: 0,
        }
    }

    /// The innermost.
    pub fn last(&self) -> Option<Bracket>
        ensures { result ≡ innermost self.now }
    {
        if self.len == 0 {
            None
        } else {
            Some(self.brackets[self.len - 1])
        }
    }

    /// Whether as many are open as can be.
    pub fn is_full(&self) -> bool
        ensures value { result ≡ (length self.now == Brackets.ROOM) }
        ensures few { length self.now ≤ Brackets.ROOM }
    {
        self.len == Self::ROOM
    }

    /// Opens one.
    pub fn push(&mut self, bracket: Bracket)
        requires { length self.old < Brackets.ROOM }
        ensures { self.new ≡ bracket ∷ self.old }
    {
        self.brackets[self.len] = bracket;
        self.len += 1;
    }

    /// Closes the innermost.
    pub fn pop(&mut self)
        requires { 0 < length self.old }
        ensures { self.new ≡ drop 1 self.old }
    {
        self.len -= 1;
    }
}
