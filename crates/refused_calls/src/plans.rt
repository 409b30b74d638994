//! The plans that calls are given.

use crate::found::Unmade;
use sab_replay::script_runner::setup_of;
use sab_sim::{Plan, Script};
use std::alloc::Global;

/// Agents 0 and 1 wait at one place, and agent 2 wakes one of them.
pub const OLDEST: &str = r#"{"blocks":[4],
  "views":[{"name":"a","kind":"Int32","block":0,"offset":0,"length":null}],
  "agents":[
    {"block":true,"calls":[["wait","a",0,0]]},
    {"block":true,"calls":[["wait","a",0,0]]},
    {"block":true,"calls":[["notify","a",0,1]]}],
  "schedule":[]}"#;

/// Agent 0 waits without end; agent 1 waits for a time at another place, and then notifies there.
pub const TWO_WAITS: &str = r#"{"blocks":[8],
  "views":[{"name":"a","kind":"Int32","block":0,"offset":0,"length":null}],
  "agents":[
    {"block":true,"calls":[["wait","a",0,0]]},
    {"block":true,"calls":[["wait","a",1,0,-5],["notify","a",1]]}],
  "schedule":[]}"#;

/// One agent that waits and loads.
pub const WAIT_AND_LOAD: &str = r#"{"blocks":[4],
  "views":[{"name":"a","kind":"Int32","block":0,"offset":0,"length":null}],
  "agents":[{"block":true,"calls":[["wait","a",0,0],["load","a",0]]}],
  "schedule":[]}"#;

/// One agent that adds 1 to an element.
const ADDER: &str = r#"{"blocks":[4],
  "views":[{"name":"a","kind":"Int32","block":0,"offset":0,"length":null}],
  "agents":[{"block":true,"calls":[["add","a",0,1]]}],
  "schedule":[]}"#;

/// The plan of a script.
pub fn plan_of(alloc: Global, script: &str) -> Result<Plan, Unmade> {
    let (plan, _) = setup_of(alloc, script.as_bytes())?.into_parts();
    Ok(plan)
}

/// Four agents that each add 1 a hundred times to one element.
pub fn four_adders(alloc: Global) -> Result<Plan, Unmade> {
    let adder = plan_of(alloc, ADDER)?;
    let mut scripts = Vec::new(alloc);
    for script in adder.scripts() {
        for call in script.calls.as_slice() {
            for _ in 0..4 {
                scripts.push(Script {
                    can_block: true,
                    calls: vec![in alloc; *call; 100]?,
                })?;
            }
        }
    }
    let lens = adder.block_lens().to_vec(alloc)?;
    let views = adder.views().to_vec(alloc)?;
    Plan::new(lens, views, scripts)
        .ok()
        .ok_or(Unmade::Wrong("no plan"))
}
