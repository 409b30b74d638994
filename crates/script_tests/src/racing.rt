//! Scripts of as many moves as races can have, and of more.

use sab_replay::faults::ToolFault;
use sab_replay::script_runner::{Share, race_bytes};
use std::alloc::{AllocError, Global};
use std::sync::Wait;
use std::test::Fail;
use std::thread::Threads;
use test_helpers::expect;

/// Whether the race of a script is refused for too many moves, with nothing written.
fn has_too_many_moves<R: Threads + Wait + Sync>(
    rt: &R,
    alloc: Global,
    script: &str,
    share: Share,
) -> bool {
    let mut text = Vec::new(alloc);
    let returned = race_bytes(rt, alloc, script.as_bytes(), share, 1_000, &mut text);
    returned == Err(ToolFault::TooManyMoves) && text.is_empty()
}

/// A script of so many agents that wait a thousand times each.
fn many_waits(alloc: Global, agents: usize) -> Result<String, AllocError> {
    let calls = [r#"["wait","a",0,0,5]"#]
        .repeat(alloc, 1_000)?
        .join(alloc, ",")?;
    let agent = format!(in alloc; r#"{{"block":true,"calls":[{calls}]}}"#)?;
    let agents = [agent.as_str()].repeat(alloc, agents)?.join(alloc, ",")?;
    format!(in alloc;
        r#"{{"bytes":4,
  "views":[{{"name":"a","kind":"Int32","offset":0,"length":null}}],
  "agents":[{agents}],"schedule":[]}}"#
    )
}

#[test]
fn too_many_moves_are_refused(rt: HostRuntime) -> Result<(), Fail> {
    let script = many_waits(rt.alloc(), 2)?;
    for share in [Share::Lock, Share::Ring] {
        let is_refused = has_too_many_moves(&rt, rt.alloc(), script.as_str(), share);
        expect(is_refused, "too many moves are made")?;
    }
    Ok(())
}

/// Whether the race of a script with 1,005,000 moves is reported to its end.
fn is_reported<R: Threads + Wait + Sync>(
    rt: &R,
    alloc: Global,
    script: &str,
    share: Share,
) -> Result<bool, ToolFault> {
    let mut text = Vec::new(alloc);
    race_bytes(rt, alloc, script.as_bytes(), share, 1_000, &mut text)?;
    Ok(text.ends_with(b"\n1004999 0 1000 stuck done\nblock 0 00000000\nagent 0 1000 of 1000\n"))
}

#[test]
fn as_many_moves_as_a_thousand_waits_have_are_reported(rt: HostRuntime) -> Result<(), Fail> {
    let script = many_waits(rt.alloc(), 1)?;
    for share in [Share::Lock, Share::Ring] {
        let is_reported = is_reported(&rt, rt.alloc(), script.as_str(), share)?;
        expect(is_reported, "another end")?;
    }
    Ok(())
}
