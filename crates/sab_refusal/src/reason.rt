//! What is wrong with a value of a script.

use crate::excerpt::Excerpt;
use crate::member::Member;
use crate::read_fault::ReadFault;
use crate::reason_text::{
    write_beyond, write_few_elements, write_fraction, write_minus_zero, write_near_kind,
    write_too_many, write_twice,
};
use sab_block::Kind;
use std::fmt;

/// What a value has to be.
#[derive(Clone, Copy, Debug)]
pub enum Wanted {
    /// An object.
    Object,
    /// An array.
    Array,
    /// A string.
    Text,
    /// `true` or `false`.
    Flag,
    /// A whole number.
    Whole,
    /// A whole number, or `null`.
    WholeOrNull,
    /// A whole number, or a string.
    Operand,
    /// A whole number, or an object.
    Move,
}

/// What there can be too many of.
#[derive(Clone, Copy, Debug)]
pub enum Unit {
    /// Bytes of a block.
    Bytes,
    /// Blocks.
    Blocks,
    /// Views.
    Views,
    /// Agents.
    Agents,
    /// Calls of an agent.
    Calls,
    /// Moves.
    Moves,
}

/// What is named by its position.
#[derive(Clone, Copy, Debug)]
pub enum Counted {
    /// An agent.
    Agent,
    /// A block.
    Block,
}

/// Why a view doesn't fit its block, as its offset or its length shows.
#[derive(Clone, Copy, Debug)]
pub enum Misfit {
    /// The number is negative.
    BelowZero(i64),
    /// The offset isn't a multiple of this size of an element.
    Uneven(u32),
    /// The offset lies behind the block, which has so many bytes.
    Behind(u32),
    /// So many elements are asked for, and so many fit.
    TooLong(i64, u32),
    /// There is no length, and the block's own, so many bytes, isn't a multiple of this size of an element.
    UnevenBlock(u32, u32),
}

/// What is wrong with a value of a script.
#[derive(Clone, Copy, Debug)]
pub enum Reason {
    /// It is of another type than this.
    Type(Wanted),
    /// It is an object that lacks this member.
    Missing(Member),
    /// It is an object with a member of this name, which isn't called for.
    Surplus(Excerpt),
    /// It is a call that is an empty array.
    EmptyCall,
    /// It has so many, and can have so many at most.
    TooMany(Unit, u64, u64),
    /// It is this name, which no view can have.
    NameForm(Excerpt),
    /// It is this name, which the view at this position has too.
    Twice(Excerpt, u32),
    /// It is this name, which no view has.
    NoView(Excerpt),
    /// It is a number with a fraction, which this text spells.
    Fraction(Excerpt),
    /// It is -0, which isn't read as a whole number.
    MinusZero,
    /// It is this whole number, written with a point or an exponent.
    PointOrExponent(i64),
    /// It is a number beyond ±(2^53 - 1).
    TooFar,
    /// It is the length of a block, and this negative number.
    BelowZero(i64),
    /// It is this string, which isn't the one spelling of a BigInt of 128 bits.
    NoBigInt(Excerpt),
    /// It is this name, which no call has.
    NoCall(Excerpt),
    /// It is a call of so many elements, which takes so many at least, and so many at most.
    FewElements(usize, usize, usize),
    /// It is a call of so many elements, and it has so many at most.
    ManyElements(usize, usize),
    /// It is this name, which no kind has, and which is like none.
    NoKind(Excerpt),
    /// It is this name, which no kind has, and which is like that of this kind.
    NearKind(Excerpt, Kind),
    /// It is a part of a view that doesn't fit its block.
    Misfit(Misfit),
    /// It is this number, and there are so many, counted from 0.
    Beyond(Counted, i64, u32),
    /// It is an array of no block.
    NoBlocks,
    /// There was no memory for what it says.
    Memory,
}

impl Reason {
    ghost use Rattle.std.specs.Prelude.{◌≡◌};
    ghost use Rattle.sab_refusal.specs.Reason.{fault_of};

    /// The fault that this is.
    pub fn fault(self) -> ReadFault
        ensures { result ≡ fault_of self }
    {
        match self {
            Reason::Type(_) | Reason::Missing(_) | Reason::Surplus(_) | Reason::EmptyCall =>
                ReadFault::BadShape,
            Reason::TooMany(_, _, _) => ReadFault::TooMany,
            Reason::NameForm(_) | Reason::Twice(_, _) | Reason::NoView(_) => ReadFault::BadName,
            Reason::Fraction(_) | Reason::MinusZero | Reason::PointOrExponent(_) | Reason::TooFar =>
                ReadFault::BadNumber,
            Reason::BelowZero(_) | Reason::NoBigInt(_) => ReadFault::BadNumber,
            Reason::NoCall(_) | Reason::FewElements(_, _, _) | Reason::ManyElements(_, _) =>
                ReadFault::BadCall,
            Reason::NoKind(_) | Reason::NearKind(_, _) | Reason::Misfit(_) => ReadFault::BadView,
            Reason::Beyond(Counted::Agent, _, _) => ReadFault::BadAgent,
            Reason::Beyond(Counted::Block, _, _) | Reason::NoBlocks => ReadFault::NoBlock,
            Reason::Memory => ReadFault::OutOfMemory,
        }
    }
}

impl fmt::Display for Wanted {
    ghost use Rattle.std.specs.Prelude.{Some};
    ghost use Rattle.sab_refusal.specs.Reason.{wanted_text};

    ghost output = { λ wanted. Some (wanted_text wanted) };

    fn fmt<W: fmt::Write>(&self, f: &mut fmt::Formatter<W>) -> fmt::Result {
        f.write_str(match self {
            Wanted::Object => "an object",
            Wanted::Array => "an array",
            Wanted::Text => "a string",
            Wanted::Flag => "true or false",
            Wanted::Whole => "a whole number",
            Wanted::WholeOrNull => "a whole number or null",
            Wanted::Operand => "a whole number or a string",
            Wanted::Move => "a whole number or an object",
        })
    }
}

impl fmt::Display for Unit {
    ghost use Rattle.std.specs.Prelude.{Some};
    ghost use Rattle.sab_refusal.specs.Reason.{unit_text};

    ghost output = { λ unit. Some (unit_text unit) };

    fn fmt<W: fmt::Write>(&self, f: &mut fmt::Formatter<W>) -> fmt::Result {
        f.write_str(match self {
            Unit::Bytes => "bytes",
            Unit::Blocks => "blocks",
            Unit::Views => "views",
            Unit::Agents => "agents",
            Unit::Calls => "calls",
            Unit::Moves => "moves",
        })
    }
}

impl fmt::Display for Counted {
    ghost use Rattle.std.specs.Prelude.{Some};
    ghost use Rattle.sab_refusal.specs.Reason.{counted_text};

    ghost output = { λ counted. Some (counted_text counted) };

    fn fmt<W: fmt::Write>(&self, f: &mut fmt::Formatter<W>) -> fmt::Result {
        f.write_str(match self {
            Counted::Agent => "agent",
            Counted::Block => "block",
        })
    }
}

impl fmt::Display for Misfit {
    ghost use Rattle.std.specs.Prelude.{Some};
    ghost use Rattle.sab_refusal.specs.Reason.{misfit_text};

    ghost output = { λ misfit. Some (misfit_text misfit) };

    fn fmt<W: fmt::Write>(&self, f: &mut fmt::Formatter<W>) -> fmt::Result {
        match self {
            Misfit::BelowZero(n) => write!(f, "{n} is below 0"),
            Misfit::Uneven(size) => write!(f, "no multiple of {size}, the size of an element"),
            Misfit::Behind(len) => write!(f, "beyond the {len} bytes of the block"),
            Misfit::TooLong(n, most) => write!(f, "{n} elements, at most {most}"),
            Misfit::UnevenBlock(len, size) => {
                write!(
                    f,
                    "null, and the block's {len} bytes are no multiple of {size}"
                )
            }
        }
    }
}

impl fmt::Display for Reason {
    ghost use Rattle.std.specs.Prelude.{Some};
    ghost use Rattle.sab_refusal.specs.Reason.{why_text};

    ghost output = { λ why. Some (why_text why) };

    fn fmt<W: fmt::Write>(&self, f: &mut fmt::Formatter<W>) -> fmt::Result {
        match self {
            Reason::Type(wanted) => write!(f, "{wanted} is called for"),
            Reason::Missing(member) => write!(f, "member {member} is missing"),
            Reason::Surplus(name) => write!(f, "member {name} isn't called for"),
            Reason::EmptyCall => f.write_str("a call has a name, a view and an index"),
            Reason::TooMany(unit, count, most) => write_too_many(f, *unit, *count, *most),
            Reason::NameForm(name) => {
                write!(
                    f,
                    "{name} isn't 1 to 32 ASCII letters, digits and low lines"
                )
            }
            Reason::Twice(name, view) => write_twice(f, *name, *view),
            Reason::NoView(name) => write!(f, "no view is called {name}"),
            Reason::Fraction(number) => write_fraction(f, *number),
            Reason::MinusZero => write_minus_zero(f),
            Reason::PointOrExponent(n) => {
                write!(f, "a whole number has no point and no exponent: write {n}")
            }
            Reason::TooFar => f.write_str("write a whole number within 2^53 - 1 of 0"),
            Reason::BelowZero(n) => write!(f, "{n} is below 0"),
            Reason::NoBigInt(digits) => write!(
                f,
                "{digits} isn't how a BigInt of 128 bits is spelled"
            ),
            Reason::NoCall(name) => write!(f, "no call is called {name}"),
            Reason::FewElements(count, least, most) => {
                write_few_elements(f, *count, *least, *most)
            }
            Reason::ManyElements(count, most) => write!(f, "{count} elements, at most {most}"),
            Reason::NoKind(name) => write!(f, "no kind is called {name}"),
            Reason::NearKind(name, kind) => write_near_kind(f, *name, *kind),
            Reason::Misfit(misfit) => write!(f, "{misfit}"),
            Reason::Beyond(counted, n, count) => write_beyond(f, *counted, *n, *count),
            Reason::NoBlocks => f.write_str("there is no block"),
            Reason::Memory => f.write_str("there is no memory for the script"),
        }
    }
}
