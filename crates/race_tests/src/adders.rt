//! Races of agents that each add 1 to one element, so often.

use crate::watching::{Hold, Watch};
use crate::way::{Way, add_one, word_plan};
use sab_sim::{Call, Plan, Report};
use std::alloc::{AllocError, Global};
use std::sync::{Arc, Wait};
use std::test::Fail;
use std::thread::Threads;
use test_helpers::expect;

/// Agents that add 1 to the one Int32 element of a block, each so often, at most a hundred times.
pub fn adders(alloc: Global, counts: &[u32]) -> Result<Plan, Fail> {
    let calls = [add_one(0); 100];
    let mut agents: Vec<(bool, &[Call])> = Vec::new(alloc);
    for count in counts {
        agents.push((true, calls.get(..*count as usize).ok_or("too many")?))?;
    }
    word_plan(alloc, agents.as_slice())
}

/// How many moves each of these agents makes, except so many of its last ones.
pub fn moves_of(alloc: Global, counts: &[u32], left_out: u32) -> Result<Vec<u32>, AllocError> {
    let mut moves = Vec::new(alloc);
    for count in counts {
        moves.push(count.saturating_mul(3).saturating_sub(left_out))?;
    }
    Ok(moves)
}

/// Whether each of these agents made its additions, and nothing was lost.
fn has_added(report: &Report, counts: &[u32]) -> bool {
    let mut sum = 0_u32;
    for (agent, count) in report.agents.iter().zip(counts) {
        if agent.returned != *count || agent.total != *count {
            return false;
        }
        sum = sum.saturating_add(*count);
    }
    let bytes = report.blocks.first().map(|bytes| bytes.as_slice());
    report.blocks.len() == 1
        && bytes == Some(sum.to_le_bytes().as_slice())
        && report.journal.len() == report.schedule.len()
        && report.journal.len() as u64 == u64::from(sum).saturating_mul(3)
        && report.agents.len() == counts.len()
}

/// Races agents that add so often, and gives the report, and the gate.
///
/// It fails if an addition is lost, if the gate isn't called once before each move and once after it, if a call of the
/// gate is under way, or if what held a move back waited for what didn't come.
pub fn race_watched<R: Threads + Wait + Sync, H: Hold + 'static>(
    rt: &R,
    alloc: Global,
    way: Way,
    counts: &[u32],
    hold: H,
) -> Result<(Report, Arc<Watch<H>>), Fail> {
    let watch = Arc::new(alloc, Watch::new(hold))?;
    let plan = adders(alloc, counts)?;
    let report = way.race(rt, alloc, plan, 0, Arc::try_clone(&watch)?)?;
    expect(has_added(&report, counts), "another sum")?;
    let moves = moves_of(alloc, counts, 0)?;
    expect(watch.saw(&moves), "a move that wasn't reported to the gate")?;
    Ok((report, watch))
}

/// The same, and gives what held the agents back. It fails if another than the caller has the gate.
pub fn race_adders<R: Threads + Wait + Sync, H: Hold + 'static>(
    rt: &R,
    alloc: Global,
    way: Way,
    counts: &[u32],
    hold: H,
) -> Result<(Report, H), Fail> {
    let (report, watch) = race_watched(rt, alloc, way, counts, hold)?;
    let watch = Arc::into_inner(watch).ok_or("the gate has another owner")?;
    let Watch { hold, .. } = watch;
    Ok((report, hold))
}
