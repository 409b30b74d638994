//! A whole schedule.

ghost use Rattle.std.specs.Prelude.{◌≡◌, [], length, None, IfOk, IfErr, OnOk};
ghost use Rattle.sab_sim.specs.declared.sim_fault.SimFault.TheVariants.{OutOfMemory};
ghost use Rattle.sab_sim.specs.Fits.{Fits, IsOnly, IsRefusal, first_refusal};

use crate::sim::Sim;
use crate::sim_fault::SimFault;
use sab_plan::{Move, Plan, Report};
use std::alloc::Global;

/// The report of a plan after all moves of a schedule, in order.
///
/// The first move that `Sim::step` would refuse decides between NoAgent and Full, and OutOfMemory may come in place of
/// either; no other schedule is refused, except for want of memory.
pub fn replay(alloc: Global, plan: Plan, schedule: &[Move]) -> Result<Report, SimFault>
    ensures fits { IfOk result (λ report. Fits plan report) }
    ensures schedule { IfOk result (λ report. report.schedule ≡ schedule.now) }
    ensures one { IfOk result (λ report. IsOnly plan report) }
    ensures refused { IfErr result (λ fault. IsRefusal plan schedule.now fault) }
    ensures unrefused { OnOk result (first_refusal (length plan.scripts) 0 schedule.now ≡ None) }
{
    let moves = schedule.len().min(Sim::MAX_ENTRIES);
    let mut sim = with_room(alloc, plan, moves as u32)?;
    for m in schedule {
        sim.step(*m)?;
    }
    Ok(sim.finish())
}

/// A simulator with room for so many moves, none of which was made.
fn with_room(alloc: Global, plan: Plan, moves: u32) -> Result<Sim, SimFault>
    ensures plan { IfOk result (λ sim. sim.plan ≡ plan) }
    ensures moves { IfOk result (λ sim. sim.moves ≡ []) }
    ensures journal { IfOk result (λ sim. sim.journal ≡ []) }
    ensures err { IfErr result (λ fault. fault ≡ OutOfMemory) }
{
    let Ok(mut sim) = Sim::new(alloc, plan) else {
        return Err(SimFault::OutOfMemory);
    };
    match sim.reserve(moves) {
        Ok(()) => Ok(sim),
        Err(_) => Err(SimFault::OutOfMemory),
    }
}
