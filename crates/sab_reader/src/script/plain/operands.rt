//! Operands, and what else is behind the index of a call, from their tokens.

ghost use Rattle.std.specs.Prelude.{◌≡◌, [], ◌∷◌, IfSome, OnSome};
ghost use Rattle.serde_json.specs.Data.{no_items, string};
ghost use Rattle.sab_plan.specs.declared.argument.Argument.TheVariants as A;
ghost use Rattle.sab_plan.specs.Call.{optional};
ghost use Rattle.sab_reader.specs.Script.Calls.{SpellsArguments};
ghost use Rattle.sab_reader.specs.Script.Numbers.{SpellsOperand, SpellsWhole, whole as whole_tree};
ghost use Rattle.sab_reader.specs.Script.Plain.{HoldsTree, HoldsItems, HoldsNext};

use crate::script::operands::big;
use crate::script::plain::numbers::scan_whole;
use json::{Element, Items};
use sab_block::Operand;
use sab_refusal::Location;

/// A BigInt of 128 bits, by its one spelling; `None` where it is none.
fn big_operand(digits: &str) -> Option<Operand>
    ensures { IfSome result (λ x. SpellsOperand (string digits.now) x) }
{
    Some(Operand::big(big(Location::Script, digits).ok()?))
}

/// A Number, which is always there for a whole number.
fn number_operand(number: i64) -> Option<Operand>
    ensures { IfSome result (λ x. SpellsWhole (whole_tree number) number → SpellsOperand (whole_tree number) x) }
{
    Operand::number(number)
}

/// An operand: a whole number is a Number, and a string is a BigInt; `None` where it is neither.
fn scan_operand(element: &Element<'_, '_>) -> Option<Operand>
    ensures { IfSome result (λ x. HoldsTree 0 (λ d. SpellsOperand d x) element.now) }
{
    match element.as_str() {
        Some(digits) => big_operand(digits),
        None => number_operand(scan_whole(element)?),
    }
}

/// The next item, a string; `None` where it is none.
pub(crate) fn next_text<'a>(rest: &mut Items<'_, 'a>) -> Option<&'a str>
    ensures { IfSome result (λ s. HoldsNext 0 (λ d. d ≡ string s.now) rest.old rest.new) }
{
    rest.next()?.as_str()
}

/// The next item, a whole number; `None` where it is none.
pub(crate) fn next_whole(rest: &mut Items<'_, '_>) -> Option<i64>
    ensures { IfSome result (λ z. HoldsNext 0 (λ d. SpellsWhole d z) rest.old rest.new) }
{
    scan_whole(&rest.next()?)
}

/// The next item, an operand; `None` where it is none.
pub(crate) fn next_operand(rest: &mut Items<'_, '_>) -> Option<Operand>
    ensures { IfSome result (λ x. HoldsNext 0 (λ d. SpellsOperand d x) rest.old rest.new) }
{
    scan_operand(&rest.next()?)
}

/// That there is no further item; else `None`.
pub(crate) fn no_more_items(rest: &mut Items<'_, '_>) -> Option<()>
    ensures { OnSome result (HoldsItems 0 (λ ds. ds ≡ no_items) rest.old) }
{
    match rest.next() {
        None => Some(()),
        Some(_) => None,
    }
}

/// The last item, an operand; `None` where it is none, or others come.
pub(crate) fn last_operand(rest: &mut Items<'_, '_>) -> Option<Operand>
    ensures { IfSome result (λ x. HoldsItems 0 (λ ds. SpellsArguments ds (A.Value x ∷ [])) rest.old) }
{
    let value = next_operand(rest)?;
    no_more_items(rest)?;
    Some(value)
}

/// The last item, a timeout or a count, which may be absent; `None` where it is none, or others come.
pub(crate) fn last_limit(rest: &mut Items<'_, '_>) -> Option<Option<i64>>
    ensures { IfSome result (λ o. HoldsItems 0 (λ ds. SpellsArguments ds (optional o)) rest.old) }
{
    match rest.next() {
        None => Some(None),
        Some(item) => {
            let limit = scan_whole(&item)?;
            no_more_items(rest)?;
            Some(Some(limit))
        }
    }
}
