//! The elements that calls name, and what is accessed there.

ghost use Rattle.std.specs.Prelude.{◌≡◌, ◌+◌, ◌≤◌, IfSome, IsTrue, Some, slice_get};
ghost use Rattle.std.specs.Option.{ForSome};
ghost use Rattle.sab_block.specs.Kind.{element_size, is_atomic};
ghost use Rattle.sab_block.specs.View.{kind_of, block_len_of};
ghost use Rattle.sab_block.specs.Access as accesses;
ghost use Rattle.sab_judge.specs.Trace.{HasBytes};
ghost use Rattle.sab_plan.specs.Call.{view_of};
ghost use Rattle.sab_plan.specs.Plan.{call_of};
ghost use Rattle.sab_replay.specs.Events.Events.{target_on, target_of, seq_cst, access_of, access_by, waiters_by};

use sab_block::{Operand, View, wrapped};
use sab_judge::{Access, Order, Place};
use sab_plan::{Call, Plan, PlanView};
use sab_sim::{Answer, Entry, What};

/// A call with the element that it names.
#[derive(Clone, Copy)]
pub struct Target {
    pub call: Call,
    pub view: View,
    pub place: Place,
}

/// The call that an entry is of, or `None` where the plan has no such call, or its view no such element.
pub fn target_of(plan: &Plan, entry: Entry) -> Option<Target>
    ensures target { result ≡ target_of plan.now entry }
    ensures there { ForSome result (λ t. HasBytes t.place (element_size (kind_of t.view))) }
{
    let call = call_of(plan, entry)?;
    let view = view_named(plan, call)?;
    target_on(call, view)
}

/// The call that an entry is of.
fn call_of(plan: &Plan, entry: Entry) -> Option<Call>
    ensures { result ≡ call_of plan.now entry.agent entry.call }
{
    let script = plan.scripts().get(entry.agent as usize)?;
    script.calls.get(entry.call as usize).copied()
}

/// The view that a call names.
fn view_named(plan: &Plan, call: Call) -> Option<PlanView>
    ensures view { result ≡ slice_get plan.now.views (view_of call) }
    ensures there { ForSome result (λ v. HasBytes (record { block = v.block; byte = 0 }) (block_len_of v.view)) }
{
    plan.views().get(call.view() as usize).copied()
}

/// The call on its view.
fn target_on(call: Call, view: PlanView) -> Option<Target>
    ensures target { result ≡ target_on call (Some view) }
    ensures block { IfSome result (λ t. t.place.block ≡ view.block) }
    ensures inside { IfSome result (λ t. t.place.byte + element_size (kind_of t.view) ≤ block_len_of view.view) }
{
    match view.view.place(call.index()) {
        Ok(byte) => Some(Target {
            call,
            view: view.view,
            place: Place {
                block: view.block,
                byte,
            },
        }),
        Err(_) => None,
    }
}

impl Target {
    /// The access that the call makes where it does this.
    pub fn access(self, what: What) -> Option<Access>
        ensures access { result ≡ access_by what self.call self }
        ensures there { HasBytes self.place (element_size (kind_of self.view))
            → ForSome result (λ a. HasBytes a.place a.len) }
    {
        match self.call {
            Call::Access { access, .. } => match what {
                What::Acted(Answer::Value(answer)) => Some(self.access_of(access, answer)),
                _ => None,
            },
            Call::Wait { .. } => match what {
                What::Acted(Answer::NotEqual) | What::Enlisted => Some(self.seq_cst(true, false)),
                _ => None,
            },
            Call::Notify { .. } => None,
        }
    }

    /// The place in whose waiters' critical section the call is, where it does this.
    pub fn waiters(self, what: What) -> Option<Place>
        ensures waiters { result ≡ waiters_by what self }
        ensures there { HasBytes self.place (element_size (kind_of self.view))
            → ForSome result (λ p. HasBytes p 1) }
    {
        let enters = match self.call {
            Call::Wait { .. } => matches!(
                what,
                What::Acted(Answer::NotEqual) | What::Enlisted | What::Left(_)
            ),
            Call::Notify { .. } => matches!(what, What::Acted(Answer::Count(_))),
            Call::Access { .. } => false,
        };
        if enters { Some(self.place) } else { None }
    }

    /// The access of a call that answered a value.
    fn access_of(self, access: sab_block::Access, answer: Operand) -> Access
        ensures access { result ≡ access_of access answer self }
        ensures place { result.place ≡ self.place }
        ensures len { result.len ≡ element_size (kind_of self.view) }
    {
        match access {
            sab_block::Access::Load { .. } => self.seq_cst(true, false),
            sab_block::Access::Store { .. } => self.seq_cst(false, true),
            sab_block::Access::Rmw { .. } => self.seq_cst(true, true),
            sab_block::Access::CompareExchange { expected, .. } => {
                let exchanged = self.view.kind().is_atomic()
                    && self.raw_of(expected) == self.raw_of(answer);
                self.seq_cst(true, exchanged)
            }
        }
    }

    /// A SeqCst access of the bytes of the element.
    fn seq_cst(self, reads: bool, writes: bool) -> Access
        ensures { result ≡ seq_cst self reads writes }
    {
        Access {
            place: self.place,
            len: self.view.kind().size(),
            reads,
            writes,
            order: Order::SeqCst,
        }
    }

    /// The raw element that an operand is written as (NumericToRawBytes).
    fn raw_of(self, operand: Operand) -> u64
        requires { IsTrue (is_atomic (kind_of self.view)) }
        ensures { result ≡ accesses.raw_of self.view operand }
    {
        wrapped(self.view.kind(), operand.whole())
    }
}
