//! A verdict as JSON.

ghost use Rattle.std.specs.Prelude.{◌≡◌, ◌+◌, ◌<◌, ◌≤◌, ◌++◌, All, length, codes, option_map};
ghost use Rattle.serde_json.specs.Data.{boolean, string};
ghost use Rattle.serde_json.specs.Written.{compact_text};
ghost use Rattle.sab_judge.specs.declared.event.Event.{Event};
ghost use Rattle.sab_judge.specs.declared.trace.TheConstants.Trace.{MAX_AGENTS};
ghost use Rattle.sab_report_text.specs.JsonLines.Members.{member_text, member_text_if};
ghost use Rattle.sab_report_text.specs.JsonLines.CallData.{AreNames, natural, call_data};
ghost use Rattle.sab_report_text.specs.JsonLines.Lines.{line};
ghost use Rattle.sab_verdict.specs.Events.{call_at, Overlap};
ghost use Rattle.sab_verdict.specs.Json.{call_side, access_side, race_data, count_data};
ghost use Rattle.sab_verdict.specs.Sides.{data_of, judged_of, HaveNames};

use crate::byte_range::ByteRange;
use crate::count::{count_accesses, count_agents};
use crate::side::Side;
use crate::sides::{Run, Sides};
use sab_judge::{Event, Race};
use sab_report_text::json_lines::{CALL_LEN, push_call_data, push_small};
use sab_report_text::text::Chunk;

/// The most bytes of an event of a race.
const SIDE_LEN: usize = 257;

/// The most bytes of a call as a member.
const DOES_LEN: usize = 8 + CALL_LEN;

/// The most bytes of a boolean.
const BOOL_LEN: usize = 5;

/// The most bytes of the last event seen, as a member.
const SEEN_LEN: usize = 28;

/// Appends the line of a race of two events.
#[tactic(auto, using(crate::proofs::Racing::shared_begins))]
pub(crate) fn push_race(sides: &Sides, race: Race, first: Side, second: Side, chunk: &mut Chunk)
    requires overlap { Overlap first second }
    requires names { HaveNames sides.now }
    requires room { length chunk.old + Chunk.LINE_ROOM ≤ Chunk.ROOM }
    ensures { chunk.new ≡ chunk.old ++ line (race_data (data_of sides.now) race first second) }
{
    let shared = ByteRange::shared(first.access, second.access);
    chunk.push(b"{\"block\":");
    push_small(first.access.place.block, chunk);
    chunk.push(b",\"byte\":");
    chunk.push_number(shared.start);
    chunk.push(b",\"data_race\":");
    push_bool(race.is_data_race, chunk);
    chunk.push(b",\"first\":");
    push_side(sides, first, chunk);
    chunk.push(b",\"second\":");
    push_side(sides, second, chunk);
    push_seen(race.seen, chunk);
    chunk.push(b",\"size\":");
    chunk.push_number(shared.end - shared.start);
    chunk.push(b"}");
    chunk.push(b"\n");
}

/// Appends an event of a race.
fn push_side(sides: &Sides, side: Side, chunk: &mut Chunk)
    requires names { HaveNames sides.now }
    requires room { length chunk.old + SIDE_LEN ≤ Chunk.ROOM }
    ensures bytes { chunk.new ≡ chunk.old ++ compact_text (data_of sides.now side) }
    ensures len { length chunk.new ≤ length chunk.old + SIDE_LEN }
{
    match sides {
        Sides::Calls(run) => push_call_side(run, side, chunk),
        Sides::Accesses => push_access_side(side, chunk),
    }
}

/// Appends an event of a script's run, with its call.
fn push_call_side(run: &Run, side: Side, chunk: &mut Chunk)
    requires names { AreNames run.now.names.now }
    requires room { length chunk.old + SIDE_LEN ≤ Chunk.ROOM }
    ensures bytes { chunk.new ≡ chunk.old
        ++ compact_text (call_side run.now.names.now run.now.plan.now run.now.journal.now side) }
    ensures len { length chunk.new ≤ length chunk.old + SIDE_LEN }
{
    chunk.push(b"{\"agent\":");
    push_small(side.agent, chunk);
    push_does(run, side.at, chunk);
    chunk.push(b",\"entry\":");
    chunk.push_number(side.at as u64);
    chunk.push(b"}");
}

/// Appends the call of entry `k`, as a member, if there is one.
fn push_does(run: &Run, k: usize, chunk: &mut Chunk)
    requires names { AreNames run.now.names.now }
    requires room { length chunk.old + DOES_LEN ≤ Chunk.ROOM }
    ensures bytes { chunk.new ≡ chunk.old ++ member_text_if (codes "does")
        (option_map (call_data run.now.names.now) (call_at run.now.plan.now run.now.journal.now k)) }
    ensures len { length chunk.new ≤ length chunk.old + DOES_LEN }
{
    if let Some(call) = run.call_at(k) {
        chunk.push(b",\"does\":");
        push_call_data(run.names, call, chunk);
    }
}

/// Appends an event of a trace, with its access.
fn push_access_side(side: Side, chunk: &mut Chunk)
    requires { length chunk.old + SIDE_LEN ≤ Chunk.ROOM }
    ensures bytes { chunk.new ≡ chunk.old ++ compact_text (access_side side) }
    ensures len { length chunk.new ≤ length chunk.old + SIDE_LEN }
{
    let access = side.access;
    chunk.push(b"{\"agent\":");
    push_small(side.agent, chunk);
    chunk.push(b",\"atomic\":");
    push_bool(access.order.is_seq_cst(), chunk);
    chunk.push(b",\"byte\":");
    chunk.push_number(u64::from(access.place.byte));
    chunk.push(b",\"event\":");
    chunk.push_number(side.at as u64);
    chunk.push(b",\"read\":");
    push_bool(access.reads, chunk);
    chunk.push(b",\"size\":");
    push_small(access.len, chunk);
    chunk.push(b",\"write\":");
    push_bool(access.writes, chunk);
    chunk.push(b"}");
}

/// Appends a boolean.
fn push_bool(b: bool, chunk: &mut Chunk)
    requires { length chunk.old + BOOL_LEN ≤ Chunk.ROOM }
    ensures bytes { chunk.new ≡ chunk.old ++ compact_text (boolean b) }
    ensures len { length chunk.new ≤ length chunk.old + BOOL_LEN }
{
    chunk.push(if b { b"true" } else { b"false" });
}

/// Appends the last event seen, as a member, where there is one.
fn push_seen(seen: Option<usize>, chunk: &mut Chunk)
    requires { length chunk.old + SEEN_LEN ≤ Chunk.ROOM }
    ensures bytes { chunk.new ≡ chunk.old ++ member_text_if (codes "seen") (option_map natural seen) }
    ensures len { length chunk.new ≤ length chunk.old + SEEN_LEN }
{
    if let Some(last) = seen {
        chunk.push(b",\"seen\":");
        chunk.push_number(last as u64);
    }
}

/// Appends the line that counts accesses, agents and races, and names what is judged: so many races are listed, so many
/// aren't, and so many of all are data races.
pub(crate) fn push_count(
    sides: &Sides,
    events: &[Event],
    reported: usize,
    rest: u64,
    data_races: u64,
    chunk: &mut Chunk,
)
    requires agents { All (λ (e : Event). e.agent < MAX_AGENTS) events.now }
    requires room { length chunk.old + Chunk.LINE_ROOM ≤ Chunk.ROOM }
    ensures { chunk.new ≡ chunk.old ++ line (count_data (judged_of sides.now) events.now reported rest data_races) }
{
    chunk.push(b"{\"accesses\":");
    chunk.push_number(count_accesses(events) as u64);
    chunk.push(b",\"agents\":");
    chunk.push_number(count_agents(events) as u64);
    chunk.push(b",\"data_races\":");
    chunk.push_number(data_races);
    chunk.push(b",\"judged\":");
    chunk.push(judged_text(sides));
    chunk.push(b",\"more\":");
    chunk.push_number(rest);
    chunk.push(b",\"races\":");
    chunk.push_number(reported as u64);
    chunk.push(b"}");
    chunk.push(b"\n");
}

/// What is judged, as a string of JSON. A script has calls of `Atomics` alone, whatever the code behind it does
/// besides.
#[tactic(auto, unfolding(json::specs::Print::escape_byte))]
fn judged_text(sides: &Sides) -> &'static [u8]
    ensures text { result.now ≡ compact_text (string (judged_of sides.now)) }
    ensures len { length result.now ≤ 18 }
{
    match sides {
        Sides::Calls(_) => b"\"calls of Atomics\"",
        Sides::Accesses => b"\"a trace\"",
    }
}
