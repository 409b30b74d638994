//! Scripts at the ends of their limits.

use sab_replay::faults::ToolFault;
use sab_replay::script_runner::{MAX_INPUT, read_input, replay_bytes};
use std::alloc::{AllocError, Global};
use std::test::Fail;
use test_helpers::expect;

/// The blocks of a script in the old form, each of the greatest length, and a view on the last byte.
const OLD: &str =
    r#""bytes":65536,"views":[{"name":"a","kind":"Uint8","offset":65535,"length":1}]"#;

/// The same in the new form, with as many blocks as there can be.
const NEW: &str =
    r#""blocks":[65536,65536,65536,65536],"views":[{"name":"a","kind":"Uint8","offset":65535,"length":1,"block":3}]"#;

/// A text so many times, with commas between.
fn repeated(alloc: Global, text: &str, times: usize) -> Result<String, AllocError> {
    [text].repeat(alloc, times)?.join(alloc, ",")
}

/// A script with as many agents and calls as there can be, and so many moves of the first agent.
fn script(alloc: Global, head: &str, moves: usize) -> Result<String, AllocError> {
    let calls = repeated(alloc, r#"["store","a",0,197]"#, 1_000)?;
    let agent = format!(in alloc; r#"{{"block":true,"calls":[{calls}]}}"#)?;
    let agents = repeated(alloc, agent.as_str(), 16)?;
    let moves = repeated(alloc, "0", moves)?;
    format!(in alloc; r#"{{{head},"agents":[{agents}],"schedule":[{moves}]}}"#)
}

/// The call of move k of an agent that stores 197 in its first 1,000 calls, and has no other; and what happens.
fn entry_of(k: u32) -> (u32, &'static str) {
    if k >= 3_000 {
        return (1_000, "stuck done");
    }
    let what = match k % 3 {
        0 => "begin",
        1 => "act 197",
        _ => "return 197",
    };
    (k / 3, what)
}

/// The lines of 100,000 moves of that agent.
fn journal(alloc: Global) -> Result<String, AllocError> {
    let mut lines = String::new(alloc);
    for k in 0..100_000 {
        let (call, what) = entry_of(k);
        lines.push_str(format!(in alloc; "{k} 0 {call} {what}\n")?.as_str())?;
    }
    Ok(lines)
}

/// The lines of so many blocks, of which the last byte is 197 and each other byte 0, and those of the agents.
fn ending(alloc: Global, blocks: usize) -> Result<String, AllocError> {
    let zeros = "00".repeat(alloc, 65_535)?;
    let mut lines = String::new(alloc);
    for b in 0..blocks {
        let last = if b + 1 == blocks { "c5" } else { "00" };
        lines.push_str(format!(in alloc; "block {b} {zeros}{last}\n")?.as_str())?;
    }
    lines.push_str("agent 0 1000 of 1000\n")?;
    for a in 1..16 {
        lines.push_str(format!(in alloc; "agent {a} 0 of 1000\n")?.as_str())?;
    }
    Ok(lines)
}

/// Whether a script at its limits, with spaces up to the greatest length of an input, is read and has its whole report.
fn is_replayed(alloc: Global, head: &str, blocks: usize) -> Result<bool, Fail> {
    let mut script = script(alloc, head, 100_000)?.into_bytes();
    script.resize(MAX_INPUT, b' ')?;
    let input = read_input(alloc, &mut script.as_slice())?;
    let mut text = Vec::new(alloc);
    replay_bytes(alloc, input.as_slice(), &mut text)?;
    let mut report = journal(alloc)?;
    report.push_str(ending(alloc, blocks)?.as_str())?;
    Ok(input.len() == 1_048_576 && text.as_slice() == report.as_bytes())
}

#[test]
fn a_script_at_its_limits_has_its_whole_report(rt: HostRuntime) -> Result<(), Fail> {
    for (head, blocks) in [(OLD, 1), (NEW, 4)] {
        expect(is_replayed(rt.alloc(), head, blocks)?, head)?;
    }
    Ok(())
}

/// Whether a script of so many moves is refused for too many of something, with nothing written.
fn is_too_many(alloc: Global, head: &str, moves: usize) -> Result<bool, AllocError> {
    let script = script(alloc, head, moves)?;
    let mut text = Vec::new(alloc);
    let returned = replay_bytes(alloc, script.as_bytes(), &mut text);
    Ok(returned == Err(ToolFault::TooMany) && text.is_empty())
}

#[test]
fn one_move_more_is_too_many(rt: HostRuntime) -> Result<(), Fail> {
    for head in [OLD, NEW] {
        expect(is_too_many(rt.alloc(), head, 100_001)?, head)?;
    }
    Ok(())
}
