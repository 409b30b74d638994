//! Traces as bytes.

ghost use Rattle.std.specs.Prelude.{◌≡◌, ◌≤◌, ◌+◌, [], ℕ, List, length, IfSome, IfOk, IfErr, OnOk, OnErr};
ghost use Rattle.std.specs.Io.KnownBytes.{IsAtEnd};
ghost use Rattle.sab_trace.specs.Progress.{SpellsNext, RefusesNext, IsReadTo, ReadsOn, RefusesWithin, most_read};
ghost use Rattle.sab_trace.specs.Reading.{SpellsTrace, IsRefusedBy};
ghost use Rattle.sab_trace.specs.LineFault.{IsLineFault};

use crate::line::{Line, split_line};
use crate::line_fault::LineFault;
use crate::refusal::Refusal;
use crate::spelling::read_line;
use json::Scratch;
use sab_judge::{Trace, TraceFault};
use std::alloc::Global;
use std::io::Read;

/// A refusal at the line behind those of the trace's events.
fn refusal(trace: &Trace, fault: LineFault) -> Refusal
    ensures line { result.line ≡ length trace.now + 1 }
    ensures fault { result.fault ≡ fault }
{
    Refusal {
        line: trace.events().len() as u32 + 1,
        fault,
    }
}

/// Appends the event that the line behind those of the trace's events spells.
fn append(
    alloc: Global,
    scratch: &mut Scratch,
    trace: &mut Trace,
    line: &[u8],
) -> Result<(), LineFault>
    requires { length line.now ≤ 1024 }
    ensures ok { OnOk result (SpellsNext trace.old line.now trace.new) }
    ensures err { IfErr result (IsLineFault (length trace.old) line.now) }
    ensures kept { OnErr result (trace.new ≡ trace.old) }
{
    let position = trace.events().len();
    if position >= Trace::MAX_EVENTS {
        return Err(LineFault::TooMany);
    }
    let event = read_line(alloc, scratch, position as u32, line)?;
    match trace.push(event) {
        Ok(()) => Ok(()),
        Err(TraceFault::OutOfMemory) => Err(LineFault::OutOfMemory),
        Err(_) => unreachable!(),
    }
}

/// Appends the event that the line spells, and empties the line.
fn end_line(
    alloc: Global,
    scratch: &mut Scratch,
    trace: &mut Trace,
    line: &mut Line,
) -> Result<(), Refusal>
    ensures ok { OnOk result (SpellsNext trace.old line.old trace.new) }
    ensures empty { OnOk result (line.new ≡ []) }
    ensures err { IfErr result (RefusesNext trace.old line.old) }
{
    match append(alloc, scratch, trace, line.bytes()) {
        Ok(()) => {
            line.clear();
            Ok(())
        }
        Err(fault) => Err(refusal(trace, fault)),
    }
}

/// Reads a piece of the input, which goes on with the line that has begun: appends the events of the lines that end in
/// it, and leaves what begins the next one.
fn read_piece(
    alloc: Global,
    scratch: &mut Scratch,
    trace: &mut Trace,
    line: &mut Line,
    piece: &[u8],
) -> Result<(), Refusal>
    ensures ok { OnOk result (ReadsOn piece.now trace.old line.old trace.new line.new) }
    ensures grown { OnOk result (most_read trace.old line.old + length piece.now ≤ most_read trace.new line.new) }
    ensures err { IfErr result (RefusesWithin piece.now trace.old line.old) }
{
    let mut rest = piece;
    while let Some((ended, behind)) = split_line(rest) {
        if let Err(fault) = line.push(ended) {
            return Err(refusal(trace, fault));
        }
        end_line(alloc, scratch, trace, line)?;
        rest = behind;
    }
    match line.push(rest) {
        Ok(()) => Ok(()),
        Err(fault) => Err(refusal(trace, fault)),
    }
}

/// The trace at the end of the input: what has begun is the last line, where it isn't empty.
fn finish(
    alloc: Global,
    scratch: &mut Scratch,
    mut trace: Trace,
    line: &mut Line,
) -> Result<Trace, Refusal>
    ensures ok { IfOk result (λ whole. (bytes : List ℕ) → IsReadTo bytes trace line.old → SpellsTrace bytes whole) }
    ensures err { IfErr result (λ refusal. (bytes : List ℕ) → IsReadTo bytes trace line.old
        → IsRefusedBy bytes refusal) }
{
    if line.bytes().is_empty() {
        return Ok(trace);
    }
    end_line(alloc, scratch, &mut trace, line)?;
    Ok(trace)
}

/// The events that the lines of a trace spell, one event a line: reads to the end.
///
/// A line ends with a line feed; behind the last one there is another line where more bytes follow. At the first line
/// that spells no event reading stops, and that line is reported with the first of these faults that it has:
///
/// - TooLong: it has more than 1,024 bytes.
/// - TooMany: there are 2^20 lines before it.
/// - NotJson: it is no JSON text in UTF-8.
/// - BadShape: that is no object with exactly the members of an event, each of its type, or the flags don't go with
///   what the event does.
/// - BadNumber: a number isn't whole, `call` is below 0, `event` isn't the count of the lines before, or the size
///   doesn't go with what the event does.
/// - BadAgent: `agent` isn't 0 to 15.
/// - BadBytes: the event accesses bytes or is in a critical section, and no block can have these bytes.
///
/// ReadFailed comes at the first read that returns a fault, and OutOfMemory if there is no memory for an event or for
/// a line's tree.
///
/// It keeps the events, and of the input a piece of 16,384 bytes and a line.
pub fn read_trace<R: Read>(alloc: Global, r: &mut R) -> Result<Trace, Refusal>
    ensures ok { IfOk result (λ trace. IfSome (R.remaining r.old) (λ bytes. SpellsTrace bytes trace)) }
    ensures end { OnOk result (IsAtEnd (R.remaining r.new)) }
    ensures err { IfErr result (λ refusal. IfSome (R.remaining r.old) (λ bytes. IsRefusedBy bytes refusal)) }
{
    let mut trace = Trace::new(alloc);
    let mut scratch = Scratch::new(alloc);
    let mut line = Line::new();
    let mut buffer = [0; 16_384];
    loop {
        let Ok(n) = r.read(&mut buffer) else {
            return Err(refusal(&trace, LineFault::ReadFailed));
        };
        if n == 0 {
            break;
        }
        read_piece(alloc, &mut scratch, &mut trace, &mut line, &buffer[..n])?;
    }
    finish(alloc, &mut scratch, trace, &mut line)
}
