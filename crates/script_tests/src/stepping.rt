//! Moves that are made one by one.

use sab_sim::{Report, Sim};
use std::alloc::Global;
use std::test::Fail;
use test_helpers::{expect, is_same, plan_of, report_with, steps};

/// Two agents wait, one wakes one of them, and one waits for a time; each kind of move is made.
const STEPS: &str = r#"{"blocks":[4],
  "views":[{"name":"a","kind":"Int32","offset":0,"length":null,"block":0}],
  "agents":[
    {"block":true,"calls":[["wait","a",0,0]]},
    {"block":true,"calls":[["wait","a",0,0]]},
    {"block":true,"calls":[["notify","a",0,1]]},
    {"block":true,"calls":[["wait","a",0,0,5]]}],
  "schedule":[0,0,1,1,2,2,0,1,2,0,3,3,{"timeout":3},{"timeout":1},{"timeout":2},2]}"#;

/// The text of their report.
const STEPPED: &str = "\
0 0 0 begin
1 0 0 wait
2 1 0 begin
3 1 0 wait
4 2 0 begin
5 2 0 act 1
6 0 0 leave ok
7 1 0 stuck waiting
8 2 0 return 1
9 0 0 return ok
10 3 0 begin
11 3 0 wait
12 3 0 leave timed-out
13 1 0 stuck endless
14 2 1 stuck not-waiting
15 2 1 stuck done
block 0 00000000
agent 0 1 of 1
agent 1 0 of 1
agent 2 1 of 1
agent 3 0 of 1
";

/// Whether a simulator shows the moves, the entries and the one block of a report.
fn shows(sim: &Sim, report: &Report) -> bool {
    let is_block = match (sim.blocks(), report.blocks.as_slice()) {
        ([block], [bytes]) => block.bytes() == bytes.as_slice(),
        _ => false,
    };
    is_block
        && sim.moves() == report.schedule.as_slice()
        && sim.journal() == report.journal.as_slice()
}

/// Whether the moves of a report, one by one, with so many reserved, make the report.
fn makes(mut sim: Sim, report: &Report, reserved: u32) -> bool {
    sim.reserve(reserved).is_ok()
        && steps(&mut sim, &report.schedule)
        && shows(&sim, report)
        && is_same(&sim.finish(), report)
}

/// The same of a simulator of the script's plan.
fn is_stepped(alloc: Global, report: &Report, reserved: u32) -> Result<bool, Fail> {
    let sim = Sim::new(alloc, plan_of(alloc, STEPS)?)?;
    Ok(makes(sim, report, reserved))
}

/// Moves of each kind, with some reserved, none, and more than a journal can have.
#[test]
fn steps_are_made_reserved_or_not(rt: HostRuntime) -> Result<(), Fail> {
    let report = report_with(rt.alloc(), STEPS, STEPPED)?;
    for reserved in [0, 3, 16, u32::MAX] {
        let is_stepped = is_stepped(rt.alloc(), &report, reserved)?;
        expect(is_stepped, "another report")?;
    }
    Ok(())
}
