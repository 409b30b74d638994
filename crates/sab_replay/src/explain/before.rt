//! What is known of an agent before its move, and what its entry then found.

ghost use Rattle.std.specs.Prelude.{◌≡◌, ℕ, List, IfSome};
ghost use Rattle.sab_plan.specs.Plan.{PlanParts};
ghost use Rattle.sab_replay.specs.Explain.Explainer as explaining;
ghost use Rattle.sab_replay.specs.Explain.Explainer.{IsReadable, IsBefore, failed_of, found, concluded};
ghost use Rattle.sab_replay.specs.Explain.Fact as facts;
ghost use Rattle.sab_replay.specs.Explain.Fact.{found_by};

use crate::explain::sight::{Sight, look, place_at, read, view_named};
use sab_block::{Access, Check, Operand, from_raw};
use sab_plan::{Answer, Call, Found, Place, Plan, What, Why, failing_check};
use sab_sim::Sim;

/// What is known of an agent before its move.
#[derive(Drop)]
pub struct Before {
    pub call: Option<Call>,
    pub place: Option<Place>,
    /// What its call would find.
    pub sight: Option<Sight>,
    /// The first check of its call that fails.
    pub failing: Option<Check>,
    /// Whether it was woken and hasn't left its wait.
    pub woken: bool,
}

/// What is known of an agent now.
pub fn before_move(sim: &Sim, agent: u32) -> Before
    ensures { IsBefore sim.now agent result }
{
    let call = sim.next_call(agent);
    Before {
        call,
        place: place_named(sim.plan(), call),
        sight: look(sim, call),
        failing: failing(sim.plan(), agent, call),
        woken: sim.is_woken(agent),
    }
}

/// The place that a call names.
pub fn place_named(plan: &Plan, call: Option<Call>) -> Option<Place>
    ensures { result ≡ facts.place_named plan.now call }
{
    let call = call?;
    place_at(view_named(plan, call)?, call.index())
}

/// The first check that fails of a call of an agent.
fn failing(plan: &Plan, agent: u32, call: Option<Call>) -> Option<Check>
    ensures { result ≡ failed_of plan.now agent call }
{
    let call = call?;
    let view = view_named(plan, call)?;
    let script = plan.scripts().get(agent as usize)?;
    failing_check(view.view, call, script.can_block)
}

/// What was found by an act of the call that was seen.
fn found_by(sight: Sight, what: What, after: Operand) -> Found
    ensures { result ≡ facts.found_by what sight.call sight.value after sight.expected sight.waiters }
{
    let Sight {
        call,
        view: _,
        place: _,
        value,
        expected,
        mut waiters,
    } = sight;
    match call {
        Call::Access { access, .. } => match what {
            What::Acted(Answer::Value(_)) => found_by_access(access, value, after, expected),
            _ => Found::Nothing,
        },
        Call::Notify { .. } => match what {
            What::Acted(Answer::Count(n)) => {
                let waiting = waiters.agents().len() as u32;
                waiters.truncate(n as usize);
                Found::Notified {
                    woken: waiters,
                    waiting,
                }
            }
            _ => Found::Nothing,
        },
        Call::Wait { .. } => match what {
            What::Acted(Answer::NotEqual) => Found::Differs { value },
            What::Enlisted => Found::Joined { ahead: waiters },
            _ => Found::Nothing,
        },
    }
}

/// What was found by an access that answered a value: of the element before and after, and of whether it was expected.
fn found_by_access(access: Access, before: Operand, after: Operand, exchanged: bool) -> Found
    ensures { (view : ℕ) (x : Operand) (line : List ℕ)
        → result ≡ facts.found_by (What.Acted (Answer.Value x)) (Call.Access view access) before after exchanged line }
{
    match access {
        Access::Load { .. } => Found::Read { value: before },
        Access::CompareExchange { .. } => Found::Compared {
            before,
            after,
            exchanged,
        },
        Access::Store { .. } | Access::Rmw { .. } => Found::Wrote { before, after },
    }
}

/// What an act found, after it, by what was seen before it.
fn find(sim: &Sim, what: What, sight: Option<Sight>) -> Found
    requires { IfSome sight (λ s. IsReadable sim.now.plan s.view s.place) }
    ensures { result ≡ found what sight sim.now.blocks }
{
    match sight {
        Some(sight) => {
            let kind = sight.view.view.kind();
            let after = from_raw(kind, read(sim, &sight.view, sight.place));
            found_by(sight, what, after)
        }
        None => Found::Nothing,
    }
}

/// What an entry found, after it, by what was known before it.
pub fn conclude(
    sim: &Sim,
    what: What,
    sight: Option<Sight>,
    waker: Option<u32>,
    check: Option<Check>,
) -> Found
    requires { IfSome sight (λ s. IsReadable sim.now.plan s.view s.place) }
    ensures { result ≡ concluded what sight waker check sim.now.blocks }
{
    match what {
        What::Acted(Answer::Value(_) | Answer::Count(_) | Answer::NotEqual) => {
            find(sim, what, sight)
        }
        What::Enlisted => find(sim, what, sight),
        What::Acted(Answer::Threw(_)) => match check {
            Some(check) => Found::Failed { check },
            None => Found::Nothing,
        },
        What::Left(Answer::Woken) | What::Stuck(Why::NotWaiting) => match waker {
            Some(entry) => Found::WokenBy { entry },
            None => Found::Nothing,
        },
        What::Left(Answer::TimedOut) | What::Stuck(Why::Waiting | Why::Endless) => Found::Waited,
        _ => Found::Nothing,
    }
}
