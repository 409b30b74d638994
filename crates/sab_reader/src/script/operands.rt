//! Operands, and what else is behind the index of a call.

ghost use Rattle.std.specs.Prelude.{◌≡◌, ◌+◌, ◌^◌, ◌<◌, ◌≤◌, ℕ, ℤ, List, [], ◌∷◌, length, IfErr};
ghost use Rattle.serde_json.specs.Data.{Data, Items, string};
ghost use Rattle.serde_json.specs.Events.{items_len};
ghost use Rattle.serde_json.specs.View.{view, items_view};
ghost use Rattle.sab_reader.specs.Script.Reading.{Finds};
ghost use Rattle.sab_reader.specs.Script.Numbers.{SpellsBig, SpellsOperand};
ghost use Rattle.sab_plan.specs.declared.argument.Argument.TheVariants as A;
ghost use Rattle.sab_plan.specs.Call.{optional};
ghost use Rattle.sab_reader.specs.Script.Calls.{SpellsArguments};
ghost use Rattle.sab_reader.specs.Script.Places.{CallsFor};
ghost use Rattle.sab_reader.specs.Script.Truth.{IsTrueWhere, IsTrueOf};
ghost use Rattle.sab_reader.specs.Script.Known.{HasArguments};
ghost use Rattle.sab_reader.specs.Script.Arguments.{TakesFrom, TakesJust, TakesTimed, StandBehind};
ghost use Rattle.sab_refusal.specs.Reason.{fault_of};

use crate::script::tree::whole;
use sab_block::Operand;
use sab_refusal::{Excerpt, Located, Location, ReadFault, Reason, Wanted};
use serde_json::Value;

/// Where in a call what is behind its index begins.
const FIRST: usize = 3;

/// A refusal of a string that isn't the one spelling of a BigInt.
fn no_big(at: Location, digits: &str) -> Located
    ensures fault { fault_of result.why ≡ ReadFault.BadNumber }
    ensures place { result.at ≡ at }
    ensures reported { IsTrueWhere at (string digits.now)
        (λ root. CallsFor root at Wanted.Operand × ((z : ℤ) → SpellsBig digits.now z → ⊥)) result }
{
    let why = Reason::NoBigInt(Excerpt::of(digits));
    Located { at, why }
}

/// A refusal of a call with so many elements behind its index, where it can have so many.
fn wrong_count(at: Location, count: usize, least: usize, most: usize) -> Located
    ensures fault { fault_of result.why ≡ ReadFault.BadCall }
    ensures place { result.at ≡ at }
    ensures reported { (root : Data) (name : List ℕ) (ds : Items) (types : List Wanted) → HasArguments root at name ds
        → TakesFrom name least types → items_len ds ≡ count → length types ≡ most → (least ≤ count → most < count)
        → count + 3 < 2 ^ 64 → IsTrueOf root result }
{
    let why = if count < least {
        Reason::FewElements(
            count.saturating_add(FIRST),
            least.saturating_add(FIRST),
            most.saturating_add(FIRST),
        )
    } else {
        Reason::ManyElements(count.saturating_add(FIRST), most.saturating_add(FIRST))
    };
    Located { at, why }
}

/// A BigInt of 128 bits, by its one spelling.
pub(crate) fn big(at: Location, digits: &str) -> Result<i128, Located>
    ensures found { Finds (λ z. z) (SpellsBig digits.now) result }
    ensures reported { IfErr result (IsTrueWhere at (string digits.now) (λ root. CallsFor root at Wanted.Operand)) }
{
    match digits.parse::<i128>() {
        Ok(n) => if itoa::Buffer::new().format(n) == digits {
            Ok(n)
        } else {
            Err(no_big(at, digits))
        },
        Err(_) => Err(no_big(at, digits)),
    }
}

/// An operand: a whole number is a Number, and a string is a BigInt.
pub(crate) fn operand(at: Location, tree: &Value) -> Result<Operand, Located>
    ensures found { Finds (λ x. x) (SpellsOperand (view tree.now)) result }
    ensures reported { IfErr result (IsTrueWhere at (view tree.now) (λ root. CallsFor root at Wanted.Operand)) }
{
    if let Value::String(digits) = tree {
        return Ok(Operand::big(big(at, digits.as_str())?));
    }
    let number = whole(at, Wanted::Operand, tree)?;
    let why = Reason::TooFar;
    Operand::number(number).ok_or(Located { at, why })
}

/// Nothing, where a call has no operand.
#[tactic(auto, using(crate::proofs::OfScript::Lengths::as_many))]
pub(crate) fn no_operand(at: Location, trees: &[Value]) -> Result<(), Located>
    ensures found { Finds (λ u. u) (λ _. SpellsArguments (items_view trees.now) []) result }
    ensures reported { IfErr result (λ e. (root : Data) (name : List ℕ)
        → HasArguments root at name (items_view trees.now)
        → TakesJust name [] → IsTrueOf root e) }
{
    let [] = trees else {
        return Err(wrong_count(at, trees.len(), 0, 0));
    };
    Ok(())
}

/// The one operand of a call.
#[tactic(auto, using(crate::proofs::OfScript::Lengths::as_many))]
pub(crate) fn one_operand(at: Location, trees: &[Value]) -> Result<Operand, Located>
    ensures found { Finds (λ x. x) (λ x. SpellsArguments (items_view trees.now) (A.Value x ∷ [])) result }
    ensures reported { IfErr result (λ e. (root : Data) (name : List ℕ)
        → HasArguments root at name (items_view trees.now)
        → TakesJust name (Wanted.Operand ∷ []) → IsTrueOf root e) }
{
    let [value] = trees else {
        return Err(wrong_count(at, trees.len(), 1, 1));
    };
    operand(at.item(FIRST), value)
}

/// The two operands of a call.
#[tactic(auto, using(crate::proofs::OfScript::Lengths::as_many))]
pub(crate) fn two_operands(at: Location, trees: &[Value]) -> Result<(Operand, Operand), Located>
    ensures found { Finds (λ p. p) (λ p. SpellsArguments (items_view trees.now) (A.Value p.0 ∷ A.Value p.1 ∷ []))
        result }
    ensures reported { IfErr result (λ e. (root : Data) (name : List ℕ)
        → HasArguments root at name (items_view trees.now)
        → TakesJust name (Wanted.Operand ∷ Wanted.Operand ∷ []) → IsTrueOf root e) }
{
    let [expected, replacement] = trees else {
        return Err(wrong_count(at, trees.len(), 2, 2));
    };
    let expected = operand(at.item(FIRST), expected)?;
    let replacement = operand(at.item(FIRST + 1), replacement)?;
    Ok((expected, replacement))
}

/// A timeout or a count, which may be absent, behind so many operands.
#[tactic(auto, using(crate::proofs::OfScript::Lengths::as_many, crate::proofs::OfScript::Lengths::one_at_most))]
pub(crate) fn optional_limit(
    at: Location,
    operands: usize,
    trees: &[Value],
) -> Result<Option<i64>, Located>
    ensures found { Finds (λ o. o) (λ o. SpellsArguments (items_view trees.now) (optional o)) result }
    ensures reported { IfErr result (λ e. (root : Data) (name : List ℕ) (ds : Items) → HasArguments root at name ds
        → StandBehind operands ds (items_view trees.now) → TakesTimed name operands → IsTrueOf root e) }
{
    match trees {
        [] => Ok(None),
        [last] => {
            let last = whole(at.item(FIRST.saturating_add(operands)), Wanted::Whole, last)?;
            Ok(Some(last))
        }
        _ => {
            let count = operands.saturating_add(trees.len());
            Err(wrong_count(at, count, operands, operands.saturating_add(1)))
        }
    }
}

/// An operand, and a timeout that may be absent.
#[tactic(auto, using(crate::proofs::OfScript::Lengths::as_many, crate::proofs::OfScript::Lengths::one_at_most))]
pub(crate) fn timed_operand(
    at: Location,
    trees: &[Value],
) -> Result<(Operand, Option<i64>), Located>
    ensures found { Finds (λ p. p) (λ p. SpellsArguments (items_view trees.now) (A.Value p.0 ∷ optional p.1)) result }
    ensures reported { IfErr result (λ e. (root : Data) (name : List ℕ)
        → HasArguments root at name (items_view trees.now)
        → TakesTimed name 1 → IsTrueOf root e) }
{
    let [value, rest @ ..] = trees else {
        return Err(wrong_count(at, trees.len(), 1, 2));
    };
    let value = operand(at.item(FIRST), value)?;
    let timeout = optional_limit(at, 1, rest)?;
    Ok((value, timeout))
}
