//! Scripts that are read, and the parts of their setups.

use sab_replay::faults::ReadFault;
use sab_replay::script_runner::{Setup, read_setup};
use serde_json::Value;
use std::alloc::{AllocError, Global};
use std::test::Fail;
use test_helpers::{STORE_AND_LOAD, expect, setup_of};

/// Two blocks with a view on each, and three agents of which one has no calls.
const TWO_VIEWS: &str = r#"{
  "blocks": [12, 16],
  "views": [
    {"name": "word", "kind": "Int32", "offset": 4, "length": 2, "block": 0},
    {"name": "Big_1", "kind": "BigUint64", "offset": 8, "length": null, "block": 1}
  ],
  "agents": [
    {"block": true, "calls": [
      ["wait", "word", 1, -5, 50],
      ["add", "Big_1", 0, "7"]
    ]},
    {"block": false, "calls": [
      ["notify", "word", 0, 3]
    ]},
    {"block": true, "calls": []}
  ],
  "schedule": [1, {"timeout": 0}, 2]
}"#;

/// Scripts, the second in the old form; and what the plan, the moves and the views show that each spells.
const SETUPS: [(&str, &str); 2] = [
    (
        TWO_VIEWS,
        concat!(
            "Plan { lens: [12, 16], views: [",
            "PlanView { block: 0, view: View { kind: Int32, block_len: 12, offset: 4, len: 2 } }, ",
            "PlanView { block: 1, view: View { kind: BigUint64, block_len: 16, offset: 8, len: 1 } }], ",
            "scripts: [Script { can_block: true, calls: [",
            "Wait { view: 0, index: 1, value: Operand { big: false, whole: -5 }, timeout: Some(50) }, ",
            "Access { view: 1, access: Rmw { op: Add, index: 0, value: Operand { big: true, whole: 7 } } }] }, ",
            "Script { can_block: false, calls: [Notify { view: 0, index: 0, count: Some(3) }] }, ",
            "Script { can_block: true, calls: [] }] }\n",
            "[Step(1), TimeUp(0), Step(2)]\n",
            "word ViewSpec { kind: Int32, offset: 4, length: Some(2), block: 0 }\n",
            "Big_1 ViewSpec { kind: BigUint64, offset: 8, length: None, block: 1 }\n"
        ),
    ),
    (
        STORE_AND_LOAD,
        concat!(
            "Plan { lens: [1], views: [",
            "PlanView { block: 0, view: View { kind: Uint8, block_len: 1, offset: 0, len: 1 } }], ",
            "scripts: [Script { can_block: true, calls: [",
            "Access { view: 0, access: Store { index: 0, value: Operand { big: false, whole: 300 } } }, ",
            "Access { view: 0, access: Load { index: 0 } }] }] }\n",
            "[Step(0), Step(0), Step(0), Step(0), Step(0), Step(0)]\n",
            "a ViewSpec { kind: Uint8, offset: 0, length: None, block: 0 }\n"
        ),
    ),
];

/// What the plan, the moves and the views of a setup show, the views by name in order.
fn shown(alloc: Global, setup: &Setup) -> Result<String, AllocError> {
    let (plan, schedule) = (setup.plan(), setup.schedule());
    let mut text = format!(in alloc; "{plan:?}\n{schedule:?}\n")?;
    for i in 0..setup.views().len() {
        if let Some((name, spec)) = setup.views().get_index(i) {
            text.push_str(format!(in alloc; "{name} {spec:?}\n")?.as_str())?;
        }
    }
    Ok(text)
}

/// Whether a script's setup shows this, and hands over the plan and the moves that it shows.
fn has_parts(alloc: Global, script: &str, text: &str) -> Result<bool, Fail> {
    let setup = setup_of(alloc, script)?;
    let is_shown = shown(alloc, &setup)?.as_str() == text;
    let (plan, schedule) = setup.into_parts();
    let parts = format!(in alloc; "{plan:?}\n{schedule:?}\n")?;
    Ok(is_shown && text.starts_with(parts.as_str()))
}

#[test]
fn a_setup_has_the_parts_that_its_script_spells(rt: HostRuntime) -> Result<(), Fail> {
    for &(script, text) in &SETUPS {
        expect(has_parts(rt.alloc(), script, text)?, text)?;
    }
    Ok(())
}

#[test]
fn a_tree_that_spells_no_setup_is_refused(rt: HostRuntime) -> Result<(), Fail> {
    let tree = Value::from_str(rt.alloc(), r#"{"blocks": [4], "views": [], "agents": []}"#)?;
    let fault = read_setup(rt.alloc(), &tree).err();
    expect(fault == Some(ReadFault::BadShape), "another fault")
}
