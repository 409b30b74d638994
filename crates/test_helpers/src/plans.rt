//! Plans, and the calls that they are made of.

use sab_block::{Kind, Operand, View};
use sab_sim::{Call, Move, Plan, PlanView, Report, Script, Sim};
use std::alloc::{AllocError, Global};
use std::test::Fail;

/// The scripts of agents: for each whether it can block, and its calls.
fn scripts(alloc: Global, agents: &[(bool, &[Call])]) -> Result<Vec<Script>, AllocError> {
    let mut scripts = Vec::new(alloc);
    for &(can_block, calls) in agents {
        let calls = calls.to_vec(alloc)?;
        scripts.push(Script { can_block, calls })?;
    }
    Ok(scripts)
}

/// A plan of these parts that is expected to be one.
pub fn plan(
    alloc: Global,
    lens: &[u32],
    views: &[PlanView],
    agents: &[(bool, &[Call])],
) -> Result<Plan, Fail> {
    let scripts = scripts(alloc, agents)?;
    let plan = Plan::new(lens.to_vec(alloc)?, views.to_vec(alloc)?, scripts);
    Ok(plan.ok().ok_or("no plan")?)
}

/// Makes moves, and returns whether each was made.
pub fn steps(sim: &mut Sim, moves: &[Move]) -> bool {
    for m in moves {
        if sim.step(*m).is_err() {
            return false;
        }
    }
    true
}

/// Whether two reports are the same.
pub fn is_same(one: &Report, other: &Report) -> bool {
    one.schedule == other.schedule
        && one.journal == other.journal
        && one.blocks == other.blocks
        && one.agents == other.agents
}

/// A view of a whole block.
pub fn whole(kind: Kind, block: u32, block_len: u32) -> Result<PlanView, Fail> {
    let view = View::new(kind, block_len, 0, None).ok().ok_or("no view")?;
    Ok(PlanView { block, view })
}

/// A BigInt; or a Number, if it is a safe integer.
pub fn operand(big: bool, whole: i128) -> Option<Operand> {
    if big {
        return Some(Operand::big(whole));
    }
    match i64::try_from(whole) {
        Ok(number) => Operand::number(number),
        Err(_) => None,
    }
}

/// A Number.
pub fn number(v: i32) -> Operand {
    Operand::number(i64::from(v)).unwrap()
}

/// A wait at view 0.
pub fn wait(index: i64, value: i32, timeout: Option<i64>) -> Call {
    Call::Wait {
        view: 0,
        index,
        value: number(value),
        timeout,
    }
}

pub fn notify(view: u32, index: i64, count: Option<i64>) -> Call {
    Call::Notify { view, index, count }
}
