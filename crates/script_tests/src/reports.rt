//! The text of a report.

use sab_block::Thrown;
use sab_replay::faults::ToolFault;
use sab_replay::script_runner::write_report;
use sab_sim::{Answer, Entry, Progress, Report, What, Why};
use std::alloc::Global;
use std::test::Fail;
use test_helpers::{STORE_AND_LOAD, STORED_AND_LOADED, empty, expect, is_text, operand, replayed};

/// An entry of the last call of the last agent.
fn entry(what: What) -> Entry {
    Entry {
        agent: 15,
        call: 999,
        what,
    }
}

/// What an entry is of, and how its line ends.
const ENTRIES: [(What, &str); 14] = [
    (What::Began, "begin"),
    (What::Acted(Answer::NotEqual), "act not-equal"),
    (What::Enlisted, "wait"),
    (What::Left(Answer::Woken), "leave ok"),
    (What::Returned(Answer::TimedOut), "return timed-out"),
    (What::Stuck(Why::Done), "stuck done"),
    (What::Stuck(Why::Waiting), "stuck waiting"),
    (What::Stuck(Why::NotWaiting), "stuck not-waiting"),
    (What::Stuck(Why::Endless), "stuck endless"),
    (What::Returned(Answer::Woken), "return ok"),
    (What::Returned(Answer::NotEqual), "return not-equal"),
    (What::Returned(Answer::Count(u32::MAX)), "return 4294967295"),
    (
        What::Returned(Answer::Threw(Thrown::TypeError)),
        "return TypeError",
    ),
    (
        What::Returned(Answer::Threw(Thrown::RangeError)),
        "return RangeError",
    ),
];

/// Whether the report of this entry alone is one line, which ends in this.
fn is_line(alloc: Global, what: What, end: &str) -> Result<bool, Fail> {
    let mut report = empty(alloc);
    report.journal.push(entry(what))?;
    let line = format!(in alloc; "0 15 999 {end}\n")?;
    Ok(is_text(alloc, &report, line.as_str())?)
}

#[test]
fn an_entry_is_one_line(rt: HostRuntime) -> Result<(), Fail> {
    for &(what, end) in &ENTRIES {
        expect(is_line(rt.alloc(), what, end)?, end)?;
    }
    Ok(())
}

/// Whether values are BigInts, their whole numbers, and how the lines of calls end that return them.
const VALUES: [(bool, i128, &str); 4] = [
    (false, 0, "return 0"),
    (false, -9_007_199_254_740_991, "return -9007199254740991"),
    (true, 7, "return 7n"),
    (
        true,
        i128::MIN,
        "return -170141183460469231731687303715884105728n",
    ),
];

#[test]
fn a_value_ends_its_line(rt: HostRuntime) -> Result<(), Fail> {
    for &(big, whole, end) in &VALUES {
        let value = operand(big, whole).ok_or("no safe integer")?;
        let what = What::Returned(Answer::Value(value));
        expect(is_line(rt.alloc(), what, end)?, end)?;
    }
    Ok(())
}

/// The text of a report.
fn text_of(alloc: Global, report: &Report) -> Result<Vec<u8>, ToolFault> {
    let mut text = Vec::new(alloc);
    write_report(report, &mut text)?;
    Ok(text)
}

/// Whether the report of so many entries ends in this.
fn ends_with(alloc: Global, entries: usize, end: &[u8]) -> Result<bool, Fail> {
    let mut report = empty(alloc);
    report.journal = vec![in alloc; entry(What::Began); entries]?;
    Ok(text_of(alloc, &report)?.ends_with(end))
}

#[test]
fn a_report_of_as_many_entries_as_a_journal_can_have_is_written(
    rt: HostRuntime,
) -> Result<(), Fail> {
    let is_written = ends_with(rt.alloc(), 1_048_576, b"\n1048575 15 999 begin\n")?;
    expect(is_written, "another end")
}

/// How far the two agents of a report came.
const AGENTS: [Progress; 2] = [
    Progress {
        returned: 2,
        total: 3,
    },
    Progress {
        returned: 0,
        total: 1_000,
    },
];

/// Whether the report of these blocks has these lines, and then those of its agents.
fn are_lines(alloc: Global, blocks: &[&[u8]], lines: &str) -> Result<bool, Fail> {
    let mut report = empty(alloc);
    report.agents.extend_from_slice(&AGENTS)?;
    for block in blocks {
        report.blocks.push(block.to_vec(alloc)?)?;
    }
    let text = format!(in alloc; "{lines}agent 0 2 of 3\nagent 1 0 of 1000\n")?;
    Ok(is_text(alloc, &report, text.as_str())?)
}

/// Blocks, and their lines.
const BLOCKS: [(&[&[u8]], &str); 2] = [
    (&[], ""),
    (
        &[b"\x00\x0f\xa9\xff", b"", b"\x07\x00\x00\x00"],
        "block 0 000fa9ff\nblock 1 -\nblock 2 07000000\n",
    ),
];

#[test]
fn each_block_is_one_line(rt: HostRuntime) -> Result<(), Fail> {
    for &(blocks, lines) in &BLOCKS {
        expect(are_lines(rt.alloc(), blocks, lines)?, "other lines")?;
    }
    Ok(())
}

#[test]
fn a_long_block_is_written_whole(rt: HostRuntime) -> Result<(), Fail> {
    let alloc = rt.alloc();
    let block = vec![in alloc; 0xc5; 20_000]?;
    let digits = "c5".repeat(alloc, 20_000)?;
    let line = format!(in alloc; "block 0 {digits}\n")?;
    let is_whole = are_lines(alloc, &[block.as_slice()], line.as_str())?;
    expect(is_whole, "other lines")
}

#[test]
fn a_replayed_report_has_the_text_that_its_script_gives(rt: HostRuntime) -> Result<(), Fail> {
    let alloc = rt.alloc();
    let report = replayed(alloc, STORE_AND_LOAD)?;
    expect(is_text(alloc, &report, STORED_AND_LOADED)?, "another text")
}
