//! What calls take behind an index.

ghost use Rattle.std.specs.Prelude.{◌≡◌, ◌≤◌, length};
ghost use Rattle.sab_plan.specs.Call.{items_of};

use sab_block::Operand;

/// An argument of a call.
#[derive(Clone, Copy)]
pub enum Argument {
    /// An operand.
    Value(Operand),
    /// A timeout or a count.
    Limit(i64),
}

/// The arguments of a call behind its index: at most two.
#[derive(Clone, Copy)]
pub enum Arguments {
    None,
    One([Argument; 1]),
    Two([Argument; 2]),
}

impl Arguments {
    /// The arguments, from left to right.
    pub fn as_slice(&self) -> &[Argument]
        ensures items { result.now ≡ items_of self.now }
        ensures few { length result.now ≤ 2 }
    {
        match self {
            Arguments::None => &[],
            Arguments::One(items) => items,
            Arguments::Two(items) => items,
        }
    }
}
