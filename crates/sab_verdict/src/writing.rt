//! From a verdict to its text.

ghost use Rattle.std.specs.Prelude.{◌≡◌, ◌+◌, ◌^◌, ◌<◌, ◌≤◌, ◌++◌, length, All, OnOk, flat_map};
ghost use Rattle.std.specs.Io.KnownBytes.{Appends, append_known};
ghost use Rattle.sab_judge.specs.declared.event.Event.{Event};
ghost use Rattle.sab_judge.specs.declared.trace.TheConstants.Trace.{MAX_AGENTS};
ghost use Rattle.sab_judge.specs.Trace.{IsTrace};
ghost use Rattle.sab_judge.specs.Verdict.{IsReported};
ghost use Rattle.sab_report_text.specs.JsonLines.CallData.{AreNames};
ghost use Rattle.sab_report_text.specs.JsonLines.SafeNumbers.{HasSafeNumbers};
ghost use Rattle.sab_verdict.specs.Json.{call_side, access_side, judged_calls, judged_trace};
ghost use Rattle.sab_verdict.specs.ReadsBack.{LinesReadBack};
ghost use Rattle.sab_verdict.specs.Verdict.{line_of, last_line, verdict_text, run_verdict_text, trace_verdict_text};
ghost use Rattle.sab_verdict.specs.Sides.{words_of, data_of, whose_of, judged_of, HaveNames};

use crate::side::side_at;
use crate::sides::{Run, Sides};
use crate::{as_json, plain};
use sab_judge::{Event, Race, Trace, Verdict};
use sab_plan::{Entry, Plan};
use sab_report_text::text::{Chunk, VerdictFormat};
use sab_report_text::words::Name;
use std::io;
use std::io::Write;

/// Writes what a judge says of a script's run, whose trace has an event for each entry of the journal: a line for each
/// race that is listed, with the calls of its two events, and what comes behind these lines.
///
/// Each line of JSON is read as its tree, if the plan's Numbers are safe integers.
///
/// `names` has the names of the plan's views, of letters, digits and `_`. It takes no memory, and doesn't flush. Where
/// a write failed nothing is said of how much was written.
pub fn write_run_verdict<W: Write>(
    names: &[Name],
    plan: &Plan,
    journal: &[Entry],
    trace: &Trace,
    verdict: &Verdict,
    format: VerdictFormat,
    w: &mut W,
) -> io::Result<()>
    requires names { AreNames names.now }
    requires reported { All (IsReported trace.now) verdict.now.races.items }
    ensures written { OnOk result (Appends (W.contents w.old) (W.contents w.new) (run_verdict_text names.now plan.now
        journal.now trace.now format verdict.now.races.items verdict.now.rest verdict.now.data_races)) }
    ensures read_back { HasSafeNumbers plan.now → LinesReadBack (call_side names.now plan.now journal.now)
        judged_calls trace.now verdict.now.races.items verdict.now.rest verdict.now.data_races }
{
    let run = Run {
        names,
        plan,
        journal,
    };
    write_verdict(&Sides::Calls(run), trace, verdict, format, w)
}

/// Writes what a judge says about a trace: a line for each race that is listed, with the accesses of its two events,
/// and what comes behind these lines.
///
/// Each line of JSON is read as its tree.
///
/// It takes no memory, and doesn't flush. Where a write failed nothing is said of how much was written.
pub fn write_trace_verdict<W: Write>(
    trace: &Trace,
    verdict: &Verdict,
    format: VerdictFormat,
    w: &mut W,
) -> io::Result<()>
    requires { All (IsReported trace.now) verdict.now.races.items }
    ensures written { OnOk result (Appends (W.contents w.old) (W.contents w.new)
        (trace_verdict_text trace.now format verdict.now.races.items verdict.now.rest verdict.now.data_races)) }
    ensures read_back { LinesReadBack access_side judged_trace trace.now verdict.now.races.items verdict.now.rest
        verdict.now.data_races }
{
    write_verdict(&Sides::Accesses, trace, verdict, format, w)
}

/// Writes what a judge says about a trace, whose events are written so.
#[tactic(auto, using(sab_report_text::proofs::OfText::Appending::appends_both, sab_report_text::proofs::OfText::Appending::kept_out))]
fn write_verdict<W: Write>(
    sides: &Sides,
    trace: &Trace,
    verdict: &Verdict,
    format: VerdictFormat,
    w: &mut W,
) -> io::Result<()>
    requires names { HaveNames sides.now }
    requires reported { All (IsReported trace.now) verdict.now.races.items }
    ensures written { OnOk result (Appends (W.contents w.old) (W.contents w.new) (verdict_text format
        (words_of sides.now) (data_of sides.now) (whose_of sides.now) (judged_of sides.now) trace.now
        verdict.now.races.items verdict.now.rest verdict.now.data_races)) }
    ensures valid { IsTrace trace.now }
    ensures few { length verdict.now.races.items < 2 ^ 64 }
    ensures rest { verdict.now.rest < 2 ^ 64 }
    ensures data_races { verdict.now.data_races < 2 ^ 64 }
{
    let events = trace.events();
    let (rest, data_races) = (verdict.rest, verdict.data_races);
    let mut chunk = Chunk::new();
    write_races(sides, events, &verdict.races, format, &mut chunk, w)?;
    push_last(
        sides,
        events,
        &verdict.races,
        rest,
        data_races,
        format,
        &mut chunk,
    );
    chunk.write(w)
}

/// Writes a line for each race; the last lines may stay in the chunk.
#[tactic(auto, using(sab_report_text::proofs::OfText::Appending::all_left, sab_report_text::proofs::OfText::Appending::none_left, crate::proofs::RaceLines::races_after))]
fn write_races<W: Write>(
    sides: &Sides,
    events: &[Event],
    races: &[Race],
    format: VerdictFormat,
    chunk: &mut Chunk,
    w: &mut W,
) -> io::Result<()>
    requires names { HaveNames sides.now }
    requires reported { All (IsReported events.now) races.now }
    requires room { length chunk.old + Chunk.LINE_ROOM ≤ Chunk.ROOM }
    ensures appended { OnOk result (Appends (append_known (W.contents w.old) chunk.old)
        (append_known (W.contents w.new) chunk.new)
        (flat_map (line_of format (words_of sides.now) (data_of sides.now) events.now) races.now)) }
    ensures room { OnOk result (length chunk.new + Chunk.LINE_ROOM ≤ Chunk.ROOM) }
{
    for race in races {
        push_race(sides, events, *race, format, chunk);
        chunk.make_room(w)?;
    }
    Ok(())
}

/// Appends the line of a race.
#[tactic(auto, using(crate::proofs::Racing::first_within, crate::proofs::Racing::second_within, crate::proofs::Racing::first_accesses, crate::proofs::Racing::second_accesses, crate::proofs::Racing::they_overlap))]
fn push_race(sides: &Sides, events: &[Event], race: Race, format: VerdictFormat, chunk: &mut Chunk)
    requires names { HaveNames sides.now }
    requires reported { IsReported events.now race }
    requires room { length chunk.old + Chunk.LINE_ROOM ≤ Chunk.ROOM }
    ensures { chunk.new ≡ chunk.old ++ line_of format (words_of sides.now) (data_of sides.now) events.now race }
{
    let first = side_at(events, race.first);
    let second = side_at(events, race.second);
    match format {
        VerdictFormat::Plain => plain::push_race(sides, race, first, second, chunk),
        VerdictFormat::Json => as_json::push_race(sides, race, first, second, chunk),
    }
}

/// Appends what comes behind the races that are listed, if so many aren't, and so many of all are data races.
fn push_last(
    sides: &Sides,
    events: &[Event],
    races: &[Race],
    rest: u64,
    data_races: u64,
    format: VerdictFormat,
    chunk: &mut Chunk,
)
    requires agents { All (λ (e : Event). e.agent < MAX_AGENTS) events.now }
    requires room { length chunk.old + Chunk.LINE_ROOM ≤ Chunk.ROOM }
    ensures { chunk.new ≡ chunk.old
        ++ last_line format (whose_of sides.now) (judged_of sides.now) events.now races.now rest data_races }
{
    match format {
        VerdictFormat::Plain => plain::push_end(sides, events, races, rest, data_races, chunk),
        VerdictFormat::Json => {
            as_json::push_count(sides, events, races.len(), rest, data_races, chunk);
        }
    }
}
