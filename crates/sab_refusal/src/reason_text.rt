//! The texts of single reasons, each given the values that the reason has.

ghost use Rattle.std.specs.Fmt.{WritesOnOk};
ghost use Rattle.sab_refusal.specs.Reason.{why_text};
ghost use Rattle.sab_refusal.specs.declared.reason.Reason.TheVariants as Reasons;

use crate::excerpt::{Bare, Excerpt};
use crate::reason::{Counted, Unit};
use sab_block::Kind;
use std::fmt;

/// Writes what there are too many of.
pub(crate) fn write_too_many<W: fmt::Write>(
    f: &mut fmt::Formatter<W>,
    unit: Unit,
    count: u64,
    most: u64,
) -> fmt::Result
    ensures { WritesOnOk W.write_str_gives f.old result (why_text (Reasons.TooMany unit count most)) f.new }
{
    write!(f, "{count} {unit}, at most {most}")
}

/// Writes the name that another view has too.
pub(crate) fn write_twice<W: fmt::Write>(
    f: &mut fmt::Formatter<W>,
    name: Excerpt,
    view: u32,
) -> fmt::Result
    ensures { WritesOnOk W.write_str_gives f.old result (why_text (Reasons.Twice name view)) f.new }
{
    write!(f, "{name} is the name of views[{view}] too")
}

/// Writes the number that has a fraction, as it is spelled.
pub(crate) fn write_fraction<W: fmt::Write>(
    f: &mut fmt::Formatter<W>,
    number: Excerpt,
) -> fmt::Result
    ensures { WritesOnOk W.write_str_gives f.old result (why_text (Reasons.Fraction number)) f.new }
{
    let number = Bare(number);
    write!(f, "{number} has a fraction: write a whole number")
}

/// Writes what to put in the place of -0.
pub(crate) fn write_minus_zero<W: fmt::Write>(f: &mut fmt::Formatter<W>) -> fmt::Result
    ensures { WritesOnOk W.write_str_gives f.old result (why_text Reasons.MinusZero) f.new }
{
    f.write_str("-0 isn't read as a whole number: write 0")
}

/// Writes how many elements a call has, and how many it takes.
pub(crate) fn write_few_elements<W: fmt::Write>(
    f: &mut fmt::Formatter<W>,
    count: usize,
    least: usize,
    most: usize,
) -> fmt::Result
    ensures { WritesOnOk W.write_str_gives f.old result (why_text (Reasons.FewElements count least most)) f.new }
{
    if least == most {
        return write!(f, "{count} of {least} elements");
    }
    write!(f, "{count} of {least} or {most} elements")
}

/// Writes the name that no kind has, and the name of the kind that may be meant.
pub(crate) fn write_near_kind<W: fmt::Write>(
    f: &mut fmt::Formatter<W>,
    name: Excerpt,
    kind: Kind,
) -> fmt::Result
    ensures { WritesOnOk W.write_str_gives f.old result (why_text (Reasons.NearKind name kind)) f.new }
{
    write!(f, "no kind is called {name}: is {kind} meant?")
}

/// Writes what there is none of, and how many there are.
pub(crate) fn write_beyond<W: fmt::Write>(
    f: &mut fmt::Formatter<W>,
    counted: Counted,
    n: i64,
    count: u32,
) -> fmt::Result
    ensures { WritesOnOk W.write_str_gives f.old result (why_text (Reasons.Beyond counted n count)) f.new }
{
    write!(
        f,
        "there is no {counted} {n}: numbered from 0, their count is {count}"
    )
}
