//! Races that are kept as scripts.

use sab_replay::faults::ToolFault;
use sab_replay::kept_script::{keep_race, recorded_move};
use sab_replay::script_runner::{Share, replay_bytes, write_report};
use sab_sim::Report;
use std::alloc::Global;
use std::sync::Wait;
use std::test::Fail;
use std::thread::Threads;
use test_helpers::expect;

/// Two agents on two blocks, one of which waits without a timeout.
const TWO_AGENTS: &str = r#"{"blocks":[4,8],
  "views":[
    {"name":"a","kind":"Int32","offset":0,"length":null,"block":0},
    {"name":"b","kind":"BigInt64","offset":0,"length":1,"block":1}],
  "agents":[
    {"block":true,"calls":[["wait","a",0,0]]},
    {"block":false,"calls":[["store","b",0,"-7"],["store","a",0,1],["notify","a",0,1]]}],
  "schedule":[]}"#;

/// Whether a report's journal has its moves.
fn has_moves(report: &Report) -> bool {
    for (entry, m) in report.journal.iter().zip(&report.schedule) {
        if recorded_move(*entry) != *m {
            return false;
        }
    }
    report.journal.len() == report.schedule.len()
}

/// Whether the script that a race is kept as replays to the report that the race returns, and whether
/// the report's journal has its moves.
fn comes_back<R: Threads + Wait + Sync>(
    rt: &R,
    alloc: Global,
    share: Share,
    seed: u64,
) -> Result<bool, ToolFault> {
    let mut script = Vec::new(alloc);
    let report = keep_race(
        rt,
        alloc,
        TWO_AGENTS.as_bytes(),
        share,
        3,
        seed,
        &mut script,
    )?;
    let mut raced = Vec::new(alloc);
    write_report(&report, &mut raced)?;
    let mut replayed = Vec::new(alloc);
    replay_bytes(alloc, &script, &mut replayed)?;
    Ok(raced == replayed && has_moves(&report))
}

#[test]
fn a_race_that_is_kept_comes_back(rt: HostRuntime) -> Result<(), Fail> {
    for share in [Share::Lock, Share::Ring] {
        for seed in 0..20 {
            let is_back = comes_back(&rt, rt.alloc(), share, seed)?;
            expect(is_back, "another report, or other moves")?;
        }
    }
    Ok(())
}
