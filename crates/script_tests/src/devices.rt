//! Readers and writers that fail, and slow ones.

use sab_replay::faults::ToolFault;
use sab_replay::script_runner::{
    MAX_INPUT, Share, race_bytes, read_input, replay_bytes, write_report,
};
use sab_sim::Report;
use std::alloc::Global;
use std::io;
use std::io::{Read, Write};
use std::sync::Wait;
use std::test::Fail;
use std::thread::Threads;
use test_helpers::{SHARED_WORD, STORE_AND_LOAD, TWO_BLOCKS, expect, replayed, report_of};

/// Takes at most so many bytes at a write, and fails once it made so many writes.
#[derive(Drop)]
struct Taker {
    most: usize,
    writes: usize,
    taken: Vec<u8>,
}

impl Write for Taker {
    fn write(&mut self, buf: &[u8]) -> io::Result<usize> {
        if self.writes == 0 {
            return Err(io::ErrorKind::BrokenPipe.into());
        }
        self.writes -= 1;
        let count = buf.len().min(self.most);
        self.taken.extend_from_slice(&buf[..count])?;
        Ok(count)
    }

    fn flush(&mut self) -> io::Result<()> {
        Ok(())
    }
}

/// Gives one byte at a read, and fails once it made so many reads.
#[derive(Drop)]
struct Giver<'a> {
    bytes: &'a [u8],
    reads: usize,
    fault: io::ErrorKind,
}

impl Read for Giver<'_> {
    fn read(&mut self, buf: &mut [u8]) -> io::Result<usize> {
        if self.reads == 0 {
            return Err(self.fault.into());
        }
        self.reads -= 1;
        let count = buf.len().min(1);
        self.bytes.read(&mut buf[..count])
    }
}

/// Gives so many spaces, and knows whether it was read on: after its end, or after more than an input can have.
#[derive(Drop)]
struct Spaces {
    left: usize,
    given: usize,
    is_over: bool,
    was_read_on: bool,
}

impl Spaces {
    fn new(count: usize) -> Spaces {
        Spaces {
            left: count,
            given: 0,
            is_over: false,
            was_read_on: false,
        }
    }
}

impl Read for Spaces {
    fn read(&mut self, buf: &mut [u8]) -> io::Result<usize> {
        if self.is_over {
            self.was_read_on = true;
        }
        let count = buf.len().min(self.left);
        buf[..count].fill(b' ');
        self.left -= count;
        self.given = self.given.saturating_add(count);
        self.is_over = count == 0 || self.given > MAX_INPUT;
        Ok(count)
    }
}

/// Replays a script, or races its agents, into a writer.
fn run<R: Threads + Wait + Sync>(
    rt: &R,
    alloc: Global,
    script: &str,
    share: Option<Share>,
    taker: &mut Taker,
) -> Result<(), ToolFault> {
    match share {
        None => replay_bytes(alloc, script.as_bytes(), taker),
        Some(share) => race_bytes(rt, alloc, script.as_bytes(), share, 0, taker),
    }
}

/// Runs a script into writers that fail at their first write, at their second and so on, until one takes the whole
/// report.
///
/// Returns how many of them failed, if each failure was reported.
fn failures_of<R: Threads + Wait + Sync>(
    rt: &R,
    alloc: Global,
    script: &str,
    share: Option<Share>,
    most: usize,
) -> Result<usize, Fail> {
    let report = report_of(alloc, script)?;
    for writes in 0..1_000 {
        let taken = Vec::new(alloc);
        let mut taker = Taker {
            most,
            writes,
            taken,
        };
        let returned = run(rt, alloc, script, share, &mut taker);
        if returned.is_ok() && taker.taken == report {
            return Ok(writes);
        }
        if returned != Err(ToolFault::WriteFailed) {
            return Err(Fail::new("another result"));
        }
    }
    Err(Fail::new("no writer took it"))
}

/// Whether a write that fails is reported, whichever it is, a short report is one write, and a slow writer gets it all.
fn is_reported<R: Threads + Wait + Sync>(
    rt: &R,
    alloc: Global,
    script: &str,
    share: Option<Share>,
) -> Result<bool, Fail> {
    let whole = failures_of(rt, alloc, script, share, usize::MAX)?;
    let slow = failures_of(rt, alloc, script, share, 1)?;
    Ok(whole == 1 && slow == report_of(alloc, script)?.len())
}

/// Scripts, and whether each is replayed or raced.
const RUNS: [(&str, Option<Share>); 4] = [
    (SHARED_WORD, None),
    (TWO_BLOCKS, None),
    (STORE_AND_LOAD, Some(Share::Lock)),
    (STORE_AND_LOAD, Some(Share::Ring)),
];

#[test]
fn a_write_that_fails_is_reported(rt: HostRuntime) -> Result<(), Fail> {
    for &(script, share) in &RUNS {
        expect(is_reported(&rt, rt.alloc(), script, share)?, script)?;
    }
    Ok(())
}

#[test]
fn a_later_write_of_a_long_report_that_fails_is_reported(rt: HostRuntime) -> Result<(), Fail> {
    let long = r#"{"blocks":[65536,65536],"views":[],"agents":[],"schedule":[]}"#;
    let failures = failures_of(&rt, rt.alloc(), long, None, usize::MAX)?;
    expect(failures >= 2, "fewer writes")
}

/// What comes of a report whose every write fails.
fn unwritten(alloc: Global, report: &Report) -> Result<(), ToolFault> {
    let taken = Vec::new(alloc);
    let mut taker = Taker {
        most: usize::MAX,
        writes: 0,
        taken,
    };
    write_report(report, &mut taker)
}

#[test]
fn a_report_that_no_write_takes_is_reported(rt: HostRuntime) -> Result<(), Fail> {
    let report = replayed(rt.alloc(), STORE_AND_LOAD)?;
    let returned = unwritten(rt.alloc(), &report);
    expect(returned == Err(ToolFault::WriteFailed), "another result")
}

/// Whether a run into a writer that takes no byte is reported to have failed.
fn is_reported_of_no_byte<R: Threads + Wait + Sync>(
    rt: &R,
    alloc: Global,
    script: &str,
    share: Option<Share>,
) -> bool {
    let taken = Vec::new(alloc);
    let mut taker = Taker {
        most: 0,
        writes: usize::MAX,
        taken,
    };
    run(rt, alloc, script, share, &mut taker) == Err(ToolFault::WriteFailed)
}

#[test]
fn a_writer_that_takes_no_byte_fails(rt: HostRuntime) -> Result<(), Fail> {
    for share in [None, Some(Share::Lock), Some(Share::Ring)] {
        for script in [SHARED_WORD, TWO_BLOCKS] {
            let is_reported = is_reported_of_no_byte(&rt, rt.alloc(), script, share);
            expect(is_reported, script)?;
        }
    }
    Ok(())
}

/// What an input of one byte a read is, which fails once it made so many reads.
fn given(
    alloc: Global,
    script: &str,
    reads: usize,
    fault: io::ErrorKind,
) -> Result<Vec<u8>, ToolFault> {
    let bytes = script.as_bytes();
    let mut giver = Giver {
        bytes,
        reads,
        fault,
    };
    read_input(alloc, &mut giver)
}

/// Whether a read that fails is reported, whichever it is.
fn is_reported_of_reads(alloc: Global, script: &str, fault: io::ErrorKind) -> bool {
    for reads in 0..=script.len() {
        if given(alloc, script, reads, fault).err() != Some(ToolFault::ReadFailed) {
            return false;
        }
    }
    true
}

#[test]
fn a_read_that_fails_is_reported(rt: HostRuntime) -> Result<(), Fail> {
    for fault in [io::ErrorKind::BrokenPipe, io::ErrorKind::Interrupted] {
        for script in [SHARED_WORD, TWO_BLOCKS] {
            expect(is_reported_of_reads(rt.alloc(), script, fault), script)?;
        }
    }
    Ok(())
}

#[test]
fn a_reader_of_one_byte_a_read_gives_the_whole_input(rt: HostRuntime) -> Result<(), Fail> {
    for script in [SHARED_WORD, TWO_BLOCKS] {
        let input = given(rt.alloc(), script, usize::MAX, io::ErrorKind::BrokenPipe)?;
        expect(input.as_slice() == script.as_bytes(), script)?;
    }
    Ok(())
}

/// Whether the input of so many spaces has this length or this fault, and isn't read on then.
fn is_read_as(alloc: Global, spaces: usize, want: Result<usize, ToolFault>) -> bool {
    let mut reader = Spaces::new(spaces);
    let read = match read_input(alloc, &mut reader) {
        Ok(input) => Ok(input.len()),
        Err(fault) => Err(fault),
    };
    read == want && !reader.was_read_on
}

/// How many spaces an input has, and how long it is that is read of them.
const INPUTS: [(usize, Result<usize, ToolFault>); 4] = [
    (0, Ok(0)),
    (1_048_576, Ok(1_048_576)),
    (1_048_577, Err(ToolFault::TooLong)),
    (2_000_000, Err(ToolFault::TooLong)),
];

#[test]
fn an_input_is_read_up_to_its_limit(rt: HostRuntime) -> Result<(), Fail> {
    for &(spaces, want) in &INPUTS {
        expect(is_read_as(rt.alloc(), spaces, want), "another length")?;
    }
    expect(MAX_INPUT == 1_048_576, "another limit")
}

#[test]
fn an_input_of_spaces_is_no_script(rt: HostRuntime) -> Result<(), Fail> {
    let alloc = rt.alloc();
    let spaces = read_input(alloc, &mut Spaces::new(MAX_INPUT))?;
    let mut text = Vec::new(alloc);
    let returned = replay_bytes(alloc, spaces.as_slice(), &mut text);
    expect(returned == Err(ToolFault::NotJson), "another result")
}
