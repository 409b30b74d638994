//! The functions of `Atomics` that calls are of.

use sab_sim::Call;
use std::test::Fail;
use test_helpers::{expect, plan_of};

/// An agent that calls each function once.
const EACH: &str = r#"{"bytes":4,
  "views":[{"name":"a","kind":"Int32","offset":0,"length":null}],
  "agents":[{"block":true,"calls":[["load","a",0],["store","a",0,1],["exchange","a",0,1],["add","a",0,1],
    ["sub","a",0,1],["and","a",0,1],["or","a",0,1],["xor","a",0,1],["compareExchange","a",0,1,1],
    ["wait","a",0,0],["notify","a",0]]}],
  "schedule":[]}"#;

const FUNCTIONS: [&str; 11] = [
    "load",
    "store",
    "exchange",
    "add",
    "sub",
    "and",
    "or",
    "xor",
    "compareExchange",
    "wait",
    "notify",
];

/// Whether calls are of these functions, in order.
fn are_of(calls: &[Call], functions: &[&str]) -> bool {
    for (call, function) in calls.iter().zip(functions) {
        if call.function() != *function {
            return false;
        }
    }
    calls.len() == functions.len()
}

#[test]
fn a_call_names_its_function(rt: HostRuntime) -> Result<(), Fail> {
    let plan = plan_of(rt.alloc(), EACH)?;
    let script = plan.scripts().first().ok_or("no agent")?;
    expect(are_of(&script.calls, &FUNCTIONS), "another function")
}
