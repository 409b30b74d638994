//! Scripts, and the reports that are expected of them.

use crate::expecting::expect;
use sab_replay::faults::ToolFault;
use sab_replay::script_runner::{Setup, read_setup, replay_bytes, write_report};
use sab_sim::{Move, Plan, Report, replay};
use serde_json::Value;
use std::alloc::Global;
use std::test::Fail;

/// An agent that stores a value in a byte and loads it.
pub const STORE_AND_LOAD: &str = r#"{"bytes":1,
  "views":[{"name":"a","kind":"Uint8","offset":0,"length":null}],
  "agents":[{"block":true,"calls":[["store","a",0,300],["load","a",0]]}],
  "schedule":[0,0,0,0,0,0]}"#;

/// The text of its report, replayed or raced.
pub const STORED_AND_LOADED: &str = "\
0 0 0 begin
1 0 0 act 300
2 0 0 return 300
3 0 1 begin
4 0 1 act 44
5 0 1 return 44
block 0 2c
agent 0 2 of 2
";

/// Two agents that can't block, on one word.
pub const SHARED_WORD: &str = r#"{"bytes":4,
  "views":[{"name":"a","kind":"Int32","offset":0,"length":1}],
  "agents":[{"block":false,"calls":[["store","a",0,5],["load","a",0]]},{"block":false,"calls":[["load","a",0]]}],
  "schedule":[0,1,0,1,0,1,0,0,0,0]}"#;

/// Two agents on two blocks: a notify in one block doesn't wake who waits in the other.
pub const TWO_BLOCKS: &str = r#"{"blocks":[4,4],
  "views":[
    {"name":"a","kind":"Int32","offset":0,"length":null,"block":0},
    {"name":"b","kind":"Int32","offset":0,"length":null,"block":1}],
  "agents":[
    {"block":true,"calls":[["wait","a",0,0]]},
    {"block":true,"calls":[["notify","b",0],["store","b",0,7],["notify","a",0]]}],
  "schedule":[0,0,1,1,1,1,1,1,1,1,0]}"#;

/// The setup that a script is expected to spell.
pub fn setup_of(alloc: Global, script: &str) -> Result<Setup, Fail> {
    let tree: Value = serde_json::from_str(alloc, script)?;
    Ok(read_setup(alloc, &tree)?)
}

/// The plan of a script.
pub fn plan_of(alloc: Global, script: &str) -> Result<Plan, Fail> {
    let (plan, _) = setup_of(alloc, script)?.into_parts();
    Ok(plan)
}

/// A report of no block, of no agent and of no moves.
pub fn empty(alloc: Global) -> Report {
    Report {
        schedule: Vec::new(alloc),
        journal: Vec::new(alloc),
        blocks: Vec::new(alloc),
        agents: Vec::new(alloc),
    }
}

/// Whether a report has this text.
pub fn is_text(alloc: Global, report: &Report, text: &str) -> Result<bool, ToolFault> {
    let mut written = Vec::new(alloc);
    write_report(report, &mut written)?;
    Ok(written.as_slice() == text.as_bytes())
}

/// Whether a report has these moves and this text.
pub fn is_report(
    alloc: Global,
    report: &Report,
    moves: &[Move],
    text: &str,
) -> Result<bool, ToolFault> {
    Ok(report.schedule.as_slice() == moves && is_text(alloc, report, text)?)
}

/// The report of a script. It fails if the report has other moves than the script, or another text than this.
pub fn report_with(alloc: Global, script: &str, text: &str) -> Result<Report, Fail> {
    let (plan, moves) = setup_of(alloc, script)?.into_parts();
    let report = replay(alloc, plan, moves.as_slice())?;
    expect(is_report(alloc, &report, &moves, text)?, "another report")?;
    Ok(report)
}

/// The report of a script, before it is written.
pub fn replayed(alloc: Global, script: &str) -> Result<Report, Fail> {
    let (plan, schedule) = setup_of(alloc, script)?.into_parts();
    Ok(replay(alloc, plan, schedule.as_slice())?)
}

/// The text of the report of a script that is expected to have one.
pub fn report_of(alloc: Global, script: &str) -> Result<Vec<u8>, Fail> {
    let mut text = Vec::new(alloc);
    replay_bytes(alloc, script.as_bytes(), &mut text)?;
    Ok(text)
}
