//! The lines of agents, and where they stand.

ghost use Rattle.std.specs.Prelude.{◌≡◌, ◌+◌, ◌≤◌, ◌++◌, None, length, codes, option_map, slice_index_or, OnOk};
ghost use Rattle.std.specs.Io.KnownBytes.{Appends, append_known};
ghost use Rattle.serde_json.specs.Written.{compact_text};
ghost use Rattle.sab_report_text.specs.JsonLines.Members.{member_text_if};
ghost use Rattle.sab_report_text.specs.JsonLines.CallData.{AreNames};
ghost use Rattle.sab_report_text.specs.JsonLines.StandingData.{at_name, notified_in, waker_in, standing_data};
ghost use Rattle.sab_report_text.specs.JsonLines.StandingData.{agent_data};
ghost use Rattle.sab_report_text.specs.JsonLines.Lines.{line, agent_lines};

use crate::json_lines::call::{CALL_LEN, push_call_data};
use crate::json_lines::found::{PLACE_LEN, SINCE_LEN, push_place, push_since};
use crate::text::Chunk;
use crate::words::{Name, standing_at};
use sab_plan::{At, Progress, Standing};
use std::io;
use std::io::Write;

/// The most bytes of where an agent stands.
const STANDING_LEN: usize = 400;

/// The most bytes of where an agent stands as a member.
const MEMBER_LEN: usize = 412;

/// Writes a line for each agent; the last lines may stay in the chunk.
#[tactic(auto, using(crate::proofs::OfText::Appending::all_left, crate::proofs::OfText::Appending::none_left, crate::proofs::OfJsonLines::ReportLines::agents_after))]
pub(crate) fn write_agents<W: Write>(
    names: &[Name],
    standings: &[Option<Standing>],
    agents: &[Progress],
    chunk: &mut Chunk,
    w: &mut W,
) -> io::Result<()>
    requires names { AreNames names.now }
    requires room { length chunk.old + Chunk.LINE_ROOM ≤ Chunk.ROOM }
    ensures appended { OnOk result (Appends (append_known (W.contents w.old) chunk.old)
        (append_known (W.contents w.new) chunk.new) (agent_lines names.now standings.now 0 agents.now)) }
    ensures room { OnOk result (length chunk.new + Chunk.LINE_ROOM ≤ Chunk.ROOM) }
{
    for (a, progress) in agents.iter().enumerate() {
        push_agent(names, a, progress, standing_at(standings, a), chunk);
        chunk.make_room(w)?;
    }
    Ok(())
}

/// Appends the line of agent `a`, and where it stands if some of its calls haven't returned.
fn push_agent(
    names: &[Name],
    a: usize,
    progress: &Progress,
    standing: Option<Standing>,
    chunk: &mut Chunk,
)
    requires names { AreNames names.now }
    requires room { length chunk.old + Chunk.LINE_ROOM ≤ Chunk.ROOM }
    ensures { chunk.new ≡ chunk.old ++ line (agent_data names.now a progress.now standing) }
{
    chunk.push(b"{\"agent\":");
    chunk.push_number(a as u64);
    chunk.push(b",\"of\":");
    chunk.push_number(u64::from(progress.total));
    chunk.push(b",\"returned\":");
    chunk.push_number(u64::from(progress.returned));
    push_standing_if(names, standing, chunk);
    chunk.push(b"}\n");
}

/// Appends where an agent stands, as a member, where it is known.
fn push_standing_if(names: &[Name], standing: Option<Standing>, chunk: &mut Chunk)
    requires names { AreNames names.now }
    requires room { length chunk.old + MEMBER_LEN ≤ Chunk.ROOM }
    ensures bytes { chunk.new
        ≡ chunk.old ++ member_text_if (codes "standing") (option_map (standing_data names.now) standing) }
    ensures len { length chunk.new ≤ length chunk.old + MEMBER_LEN }
{
    if let Some(standing) = standing {
        chunk.push(b",\"standing\":");
        push_standing(names, standing, chunk);
    }
}

/// Appends where an agent stands.
fn push_standing(names: &[Name], standing: Standing, chunk: &mut Chunk)
    requires names { AreNames names.now }
    requires room { length chunk.old + STANDING_LEN ≤ Chunk.ROOM }
    ensures bytes { chunk.new ≡ chunk.old ++ compact_text (standing_data names.now standing) }
    ensures len { length chunk.new ≤ length chunk.old + STANDING_LEN }
{
    chunk.push(head_of(standing.at));
    push_call_data(names, standing.call, chunk);
    push_notified(standing.at, chunk);
    push_place(standing.place, chunk);
    push_since(standing.since, chunk);
    push_waker(standing.at, chunk);
    chunk.push(b"}");
}

/// What stands before the call that an agent is at: how far it is with it.
fn head_of(at: At) -> &'static [u8]
    ensures text { result.now ≡ codes "{\"at\":\"" ++ (at_name at ++ codes "\",\"does\":") }
    ensures len { length result.now ≤ 25 }
{
    match at {
        At::Ready => b"{\"at\":\"ready\",\"does\":",
        At::Begun => b"{\"at\":\"begun\",\"does\":",
        At::Waits { .. } => b"{\"at\":\"waits\",\"does\":",
        At::Woken { .. } => b"{\"at\":\"woken\",\"does\":",
        At::Answered => b"{\"at\":\"answered\",\"does\":",
    }
}

/// Appends whether the place of an agent that waits was notified since.
#[tactic(auto, unfolding(json::specs::Print::escape_byte))]
fn push_notified(at: At, chunk: &mut Chunk)
    requires { length chunk.old + 17 ≤ Chunk.ROOM }
    ensures bytes { chunk.new ≡ chunk.old ++ member_text_if (codes "notified") (notified_in at) }
    ensures len { length chunk.new ≤ length chunk.old + 17 }
{
    if let At::Waits { notified } = at {
        chunk.push(if notified {
            b",\"notified\":true"
        } else {
            b",\"notified\":false"
        });
    }
}

/// Appends which entry woke an agent that hasn't left its wait.
fn push_waker(at: At, chunk: &mut Chunk)
    requires { length chunk.old + 32 ≤ Chunk.ROOM }
    ensures bytes { chunk.new ≡ chunk.old ++ member_text_if (codes "woken_by") (waker_in at) }
    ensures len { length chunk.new ≤ length chunk.old + 32 }
{
    if let At::Woken { entry } = at {
        chunk.push(b",\"woken_by\":");
        chunk.push_number(u64::from(entry));
    }
}
