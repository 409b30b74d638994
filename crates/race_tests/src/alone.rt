//! Agents that are alone, whose race has one order only.

ghost use Rattle.std.specs.Prelude.{◌≤◌};

use crate::way::Way;
use sab_race::{MAX_SPINS, NoGate};
use sab_replay::faults::ToolFault;
use sab_replay::script_runner::{Share, race_bytes, race_mixed};
use std::alloc::Global;
use std::sync::{Arc, Wait};
use std::test::Fail;
use std::thread::Threads;
use test_helpers::{STORE_AND_LOAD, STORED_AND_LOADED, expect, is_report, setup_of};

/// Scripts of one agent, how many spins its waits have, and the report, which has the moves of the script's schedule:
/// accesses; a wait with a timeout, and one without; and no calls.
const RUNS: [(&str, u32, &str); 4] = [
    (STORE_AND_LOAD, 0, STORED_AND_LOADED),
    (
        r#"{"bytes":4,
  "views":[{"name":"a","kind":"Int32","offset":0,"length":null}],
  "agents":[{"block":true,"calls":[["wait","a",0,0,5]]}],
  "schedule":[0,0,0,{"timeout":0},0,0]}"#,
        1,
        "\
0 0 0 begin
1 0 0 wait
2 0 0 stuck waiting
3 0 0 leave timed-out
4 0 0 return timed-out
5 0 1 stuck done
block 0 00000000
agent 0 1 of 1
",
    ),
    (
        r#"{"bytes":4,
  "views":[{"name":"a","kind":"Int32","offset":0,"length":null}],
  "agents":[{"block":true,"calls":[["wait","a",0,0]]}],
  "schedule":[0,0,0,{"timeout":0},0,0]}"#,
        1,
        "\
0 0 0 begin
1 0 0 wait
2 0 0 stuck waiting
3 0 0 stuck endless
4 0 0 stuck waiting
5 0 0 stuck waiting
block 0 00000000
agent 0 0 of 1
",
    ),
    (
        r#"{"blocks":[4],"views":[],"agents":[{"block":true,"calls":[]}],"schedule":[]}"#,
        0,
        "block 0 00000000\nagent 0 0 of 0\n",
    ),
];

/// Whether a race of a script makes the moves of its schedule, and has this report.
fn is_raced<R: Threads + Wait + Sync>(
    rt: &R,
    alloc: Global,
    way: Way,
    spins: u32,
    run: (&str, &str),
) -> Result<bool, Fail>
    requires { spins ≤ MAX_SPINS }
{
    let (script, text) = run;
    let (plan, moves) = setup_of(alloc, script)?.into_parts();
    let report = way.race(rt, alloc, plan, spins, Arc::new(alloc, NoGate)?)?;
    Ok(is_report(alloc, &report, &moves, text)?)
}

#[test]
fn an_agent_alone_has_one_race(rt: HostRuntime) -> Result<(), Fail> {
    for &(script, spins, text) in &RUNS {
        for way in &Way::BOTH {
            let is_raced = spins <= MAX_SPINS
                && is_raced(&rt, rt.alloc(), *way, spins, (script, text))?;
            expect(is_raced, text)?;
        }
    }
    Ok(())
}

/// Whether the race of a script's bytes gives just this report, mixed or not.
fn gives<R: Threads + Wait + Sync>(
    rt: &R,
    alloc: Global,
    share: Share,
    spins: u32,
    run: (&str, &str),
) -> Result<bool, ToolFault>
    requires { spins ≤ MAX_SPINS }
{
    let (script, report) = run;
    let mut text = Vec::new(alloc);
    race_bytes(rt, alloc, script.as_bytes(), share, spins, &mut text)?;
    let mut mixed = Vec::new(alloc);
    race_mixed(rt, alloc, script.as_bytes(), share, spins, 7, &mut mixed)?;
    Ok(text.as_slice() == report.as_bytes() && mixed == text)
}

#[test]
fn one_agent_alone_races_as_it_is_replayed(rt: HostRuntime) -> Result<(), Fail> {
    for &(script, spins, text) in &RUNS {
        for share in [Share::Lock, Share::Ring] {
            let is_given = spins <= MAX_SPINS
                && gives(&rt, rt.alloc(), share, spins, (script, text))?;
            expect(is_given, text)?;
        }
    }
    Ok(())
}
