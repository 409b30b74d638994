//! What came of calls.

ghost use Rattle.std.specs.Prelude.{◌≡◌, ◌+◌, ◌≤◌, ◌++◌, length};
ghost use Rattle.sab_report_text.specs.Words.CallText.{element_text};
ghost use Rattle.sab_report_text.specs.Words.FactText.{is_same, changed_text, wrote_text, stayed_text, exchanged_text};
ghost use Rattle.sab_report_text.specs.Words.FactText.{compared_text, element_is, outcome_text};

use crate::text::Chunk;
use crate::words::call_text::{push_element, push_stand};
use crate::words::name::Name;
use crate::words::reason_text::push_reason;
use crate::words::waiting_text::{push_ahead, push_notified};
use sab_block::Operand;
use sab_plan::{Call, Fact, Found, Plan};

/// The most bytes of what an element is.
const VALUE_LEN: usize = 121;

/// The most bytes of what an access did to its element.
const CHANGE_LEN: usize = 180;

/// The most bytes of what came of a call.
pub(crate) const OUTCOME_LEN: usize = 960;

/// Appends what came of a call of an agent.
pub(crate) fn push_outcome(
    names: &[Name],
    plan: &Plan,
    sinces: &[Option<u32>],
    agent: u32,
    call: Call,
    fact: &Fact,
    chunk: &mut Chunk,
)
    requires { length chunk.old + OUTCOME_LEN ≤ Chunk.ROOM }
    ensures bytes { chunk.new
        ≡ chunk.old ++ outcome_text names.now plan.now sinces.now agent call fact.now.since fact.now.found }
    ensures len { length chunk.new ≤ length chunk.old + OUTCOME_LEN }
{
    match &fact.found {
        Found::Nothing => {}
        Found::Read { value } => {
            chunk.push(b" reads ");
            chunk.push_operand(*value);
        }
        Found::Wrote { before, after } => push_wrote(names, call, *before, *after, chunk),
        Found::Compared {
            before,
            after,
            exchanged,
        } => push_compared(names, call, *before, *after, *exchanged, chunk),
        Found::Differs { value } => {
            chunk.push(b" doesn't wait");
            push_element_is(names, call, *value, chunk);
        }
        Found::Joined { ahead } => {
            chunk.push(b" waits at ");
            push_element(names, call, chunk);
            push_ahead(ahead, chunk);
        }
        Found::Notified { woken, waiting } => {
            push_notified(names, call, sinces, woken, *waiting, chunk);
        }
        Found::WokenBy { entry } => {
            chunk.push(b" was woken by ");
            chunk.push_number(u64::from(*entry));
        }
        Found::Failed { check } => {
            chunk.push(b" throws: ");
            push_reason(names, plan, agent, call, *check, chunk);
        }
        Found::Waited => {
            chunk.push(b" times out after waiting");
            push_stand(names, call, fact.since, chunk);
        }
    }
}

/// Appends what a store or a read-modify-write did.
fn push_wrote(names: &[Name], call: Call, before: Operand, after: Operand, chunk: &mut Chunk)
    requires { length chunk.old + CHANGE_LEN ≤ Chunk.ROOM }
    ensures bytes { chunk.new ≡ chunk.old ++ wrote_text (element_text names.now call) before after }
    ensures len { length chunk.new ≤ length chunk.old + CHANGE_LEN }
{
    if !is_same(before, after) {
        push_changed(names, call, before, after, chunk);
        return;
    }
    chunk.push(b" leaves ");
    push_element(names, call, chunk);
    chunk.push(b" at ");
    chunk.push_operand(after);
}

/// Appends what a compare-exchange did.
fn push_compared(
    names: &[Name],
    call: Call,
    before: Operand,
    after: Operand,
    exchanged: bool,
    chunk: &mut Chunk,
)
    requires { length chunk.old + CHANGE_LEN ≤ Chunk.ROOM }
    ensures bytes { chunk.new ≡ chunk.old ++ compared_text (element_text names.now call) before after exchanged }
    ensures len { length chunk.new ≤ length chunk.old + CHANGE_LEN }
{
    if exchanged {
        push_exchanged(names, call, before, after, chunk);
    } else {
        chunk.push(b" fails");
        push_element_is(names, call, before, chunk);
    }
}

/// Appends what a compare-exchange did that exchanged.
fn push_exchanged(names: &[Name], call: Call, before: Operand, after: Operand, chunk: &mut Chunk)
    requires { length chunk.old + CHANGE_LEN ≤ Chunk.ROOM }
    ensures bytes { chunk.new ≡ chunk.old ++ exchanged_text (element_text names.now call) before after }
    ensures len { length chunk.new ≤ length chunk.old + CHANGE_LEN }
{
    if is_same(before, after) {
        push_stayed(names, call, after, chunk);
    } else {
        push_changed(names, call, before, after, chunk);
    }
}

/// Appends what a compare-exchange did that exchanged one number for the same.
fn push_stayed(names: &[Name], call: Call, after: Operand, chunk: &mut Chunk)
    requires { length chunk.old + CHANGE_LEN ≤ Chunk.ROOM }
    ensures bytes { chunk.new ≡ chunk.old ++ stayed_text (element_text names.now call) after }
    ensures len { length chunk.new ≤ length chunk.old + CHANGE_LEN }
{
    chunk.push(b" exchanges, ");
    push_element(names, call, chunk);
    chunk.push(b" stays ");
    chunk.push_operand(after);
}

/// Appends how an element changed.
fn push_changed(names: &[Name], call: Call, before: Operand, after: Operand, chunk: &mut Chunk)
    requires { length chunk.old + CHANGE_LEN ≤ Chunk.ROOM }
    ensures bytes { chunk.new ≡ chunk.old ++ changed_text (element_text names.now call) before after }
    ensures len { length chunk.new ≤ length chunk.old + CHANGE_LEN }
{
    chunk.push(b" changes ");
    push_element(names, call, chunk);
    chunk.push(b" from ");
    chunk.push_operand(before);
    chunk.push(b" to ");
    chunk.push_operand(after);
}

/// Appends what an element is, for which a call does nothing.
#[tactic(auto, unfolding(crate::specs::Words::FactText::element_is))]
fn push_element_is(names: &[Name], call: Call, value: Operand, chunk: &mut Chunk)
    requires { length chunk.old + VALUE_LEN ≤ Chunk.ROOM }
    ensures bytes { chunk.new ≡ chunk.old ++ element_is (element_text names.now call) value }
    ensures len { length chunk.new ≤ length chunk.old + VALUE_LEN }
{
    chunk.push(b", ");
    push_element(names, call, chunk);
    chunk.push(b" is ");
    chunk.push_operand(value);
}

/// Whether two operands are one number.
pub fn is_same(before: Operand, after: Operand) -> bool
    ensures { result ≡ is_same before after }
{
    before.whole() == after.whole()
}
