//! What is seen of a call before it acts.

ghost use Rattle.std.specs.Prelude.{◌≡◌, ◌<◌, IfSome, IfNone, IsTrue, Some, slice_get};
ghost use Rattle.sab_block.specs.Kind.{is_atomic, raw_count};
ghost use Rattle.sab_block.specs.View.{kind_of, block_len_of};
ghost use Rattle.sab_block.specs.Access.{element};
ghost use Rattle.sab_plan.specs.Call.{view_of};
ghost use Rattle.sab_plan.specs.Place.{place_of};
ghost use Rattle.sab_object.specs.Object.{bytes_of};
ghost use Rattle.sab_replay.specs.Explain.Explainer as explaining;
ghost use Rattle.sab_replay.specs.Explain.Explainer.{IsReadable, IsInside, IsSight, IsBlind};

use sab_block::{Access, Operand, View, from_raw, to_raw};
use sab_plan::{Call, Place, Plan, PlanView, Waiters};
use sab_sim::Sim;

/// A call with its place, the element there and the line there.
#[derive(Drop)]
pub struct Sight {
    pub call: Call,
    pub view: PlanView,
    pub place: Place,
    /// The element.
    pub value: Operand,
    /// Whether it is the one that a compare-exchange expects.
    pub expected: bool,
    pub waiters: Waiters,
}

/// What a call would find now, if its view can be read at its index.
pub fn look(sim: &Sim, call: Option<Call>) -> Option<Sight>
    ensures sight { IfSome result (λ sight. IsSight sim.now call sight) }
    ensures blind { IfNone result (IsBlind sim.now call) }
{
    let call = call?;
    let view = view_named(sim.plan(), call)?;
    let place = place_at(view, call.index())?;
    if !view.view.kind().is_atomic() {
        return None;
    }
    let raw = read(sim, &view, place);
    Some(Sight {
        call,
        view,
        place,
        value: from_raw(view.view.kind(), raw),
        expected: is_expected(view.view, call, raw),
        waiters: sim.waiters_at(place),
    })
}

/// The view that a call names.
pub fn view_named(plan: &Plan, call: Call) -> Option<PlanView>
    ensures view { result ≡ slice_get plan.now.views (view_of call) }
    ensures len { IfSome result (λ v. slice_get plan.now.lens v.block ≡ Some (block_len_of v.view)) }
{
    plan.views().get(call.view() as usize).copied()
}

/// The place of an index of a view.
pub fn place_at(view: PlanView, index: i64) -> Option<Place>
    ensures place { result ≡ place_of view index }
    ensures inside { IfSome result (λ p. IsInside view.view p.byte) }
{
    match view.view.place(index) {
        Ok(byte) => Some(Place {
            block: view.block,
            byte,
        }),
        Err(_) => None,
    }
}

/// The raw element of a view at a place, now.
pub fn read(sim: &Sim, view: &PlanView, place: Place) -> u64
    requires { IsReadable sim.now.plan view.now place }
    ensures raw { result ≡ element view.now.view (bytes_of sim.now.blocks view.now.block) place.byte }
    ensures fits { result < raw_count (kind_of view.now.view) }
{
    sim.blocks()[view.block as usize].read(place.byte, view.view.kind().size())
}

/// Whether a raw element is the one that a compare-exchange expects.
fn is_expected(view: View, call: Call, raw: u64) -> bool
    requires { IsTrue (is_atomic (kind_of view)) }
    ensures { result ≡ explaining.is_expected view call raw }
{
    match call {
        Call::Access {
            access: Access::CompareExchange { expected, .. },
            ..
        } => matches!(to_raw(view.kind(), expected), Ok(r) if r == raw),
        _ => false,
    }
}
