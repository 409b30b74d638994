//! Races that are kept.

ghost use Rattle.std.specs.Prelude.{◌≤◌, IfOk, IfErr};
ghost use Rattle.sab_replay.specs.ScriptRunner.Racing.{MAX_SPINS};
ghost use Rattle.sab_replay.specs.KeptScript.Keeping.{IsRaceIn, IsKept, KeepsRun, IsRaceUnkept, IsKeepFault};

use crate::faults::ToolFault;
use crate::kept_script::parsing::parse_script;
use crate::kept_script::rescheduled::rescheduled_text;
use crate::script_runner::{Share, race_plan};
use sab_sim::Report;
use std::alloc::Global;
use std::io::Write;
use std::sync::Wait;
use std::thread::Threads;

/// Runs the agents of a script in threads, mixed by a seed, and writes the script with the schedule of
/// the race, in its canonical text; it doesn't flush. The answer is the report of the race, which is
/// also that of the script that was written.
///
/// The canonical text is that of [`keep_replay`](crate::kept_script::keep_replay), and the race is run as
/// [`race_mixed`](crate::script_runner::race_mixed) does. TooMany also where the race has more moves than a script
/// can have, or the text has more than 1,048,576 bytes. WriteFailed where a write failed; nothing is
/// said then of how much was written. Every other fault is a refusal of the script or of the race, and
/// nothing was written.
pub fn keep_race<R: Threads + Wait + Sync, W: Write>(
    rt: &R,
    alloc: Global,
    script: &[u8],
    share: Share,
    spins: u32,
    seed: u64,
    w: &mut W,
) -> Result<Report, ToolFault>
    requires { spins ≤ MAX_SPINS }
    ensures ok { IfOk result
        (KeepsRun (IsRaceIn spins) (W.contents w.old) (W.contents w.new) script.now) }
    ensures err { IfErr result
        (IsKeepFault (IsRaceUnkept spins) (W.contents w.old) (W.contents w.new) script.now) }
{
    let (text, report) = race_text(rt, alloc, script, share, spins, seed)?;
    w.write_all(&text).map_err(ToolFault::of_write)?;
    Ok(report)
}

/// Runs the agents of a script in threads: the text that keeps the race, and its report.
fn race_text<R: Threads + Wait + Sync>(
    rt: &R,
    alloc: Global,
    script: &[u8],
    share: Share,
    spins: u32,
    seed: u64,
) -> Result<(Vec<u8>, Report), ToolFault>
    requires { spins ≤ MAX_SPINS }
    ensures kept { IfOk result (λ p. IsKept (IsRaceIn spins) script.now p.1 p.0.items) }
    ensures err { IfErr result (IsRaceUnkept spins script.now) }
{
    let (tree, setup) = parse_script(alloc, script)?;
    let (plan, _) = setup.into_parts();
    let report = race_plan(rt, alloc, plan, share, spins, seed)?;
    let text = rescheduled_text(alloc, tree, &report.schedule)?;
    Ok((text, report))
}
