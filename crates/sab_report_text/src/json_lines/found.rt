//! What entries found, as members of their objects.

ghost use Rattle.std.specs.Prelude.{◌≡◌, ◌+◌, ◌*◌, ◌≤◌, ◌++◌, Some, true, length, codes, option_map};
ghost use Rattle.serde_json.specs.Data.{array, object};
ghost use Rattle.serde_json.specs.Written.{compact_text, items_text};
ghost use Rattle.sab_report_text.specs.JsonLines.Members.{member_text_if};
ghost use Rattle.sab_report_text.specs.JsonLines.CallData.{natural};
ghost use Rattle.sab_report_text.specs.JsonLines.FactData.{agent_items, place_data, found_data};
ghost use Rattle.sab_plan.specs.declared.fact.Found.TheVariants as F;
ghost use Rattle.sab_plan.specs.declared.plan.TheConstants.Plan.{MAX_AGENTS};

use crate::json_lines::call::{OPERAND_LEN, push_operand};
use crate::json_lines::small::push_small;
use crate::text::Chunk;
use sab_block::{Check, Operand};
use sab_plan::{Found, Place};

/// The most bytes of one more agent of several.
const NEXT_AGENT_LEN: usize = 21;

/// The most bytes of an array of 16 agents.
const AGENTS_LEN: usize = 340;

/// The most bytes of what an entry found.
pub(crate) const FOUND_LEN: usize = 420;

/// The most bytes of a place.
pub(crate) const PLACE_LEN: usize = 68;

/// The most bytes of since when an agent stands as it does.
pub(crate) const SINCE_LEN: usize = 29;

/// Appends what an entry found, where it is something.
#[tactic(auto, unfolding(json::specs::Print::escape_byte, crate::specs::JsonLines::FactData::found_data))]
pub(crate) fn push_found(found: &Found, chunk: &mut Chunk)
    requires { length chunk.old + FOUND_LEN ≤ Chunk.ROOM }
    ensures bytes { chunk.new ≡ chunk.old ++ member_text_if (codes "found") (found_data found.now) }
    ensures len { length chunk.new ≤ length chunk.old + FOUND_LEN }
{
    match found {
        Found::Nothing => {}
        Found::Read { value } | Found::Differs { value } => push_element(*value, chunk),
        Found::Wrote { before, after } => push_wrote(*before, *after, chunk),
        Found::Compared {
            before,
            after,
            exchanged,
        } => push_compared(*before, *after, *exchanged, chunk),
        Found::Joined { ahead } => push_joined(ahead.agents(), chunk),
        Found::Notified { woken, waiting } => push_notified(woken.agents(), *waiting, chunk),
        Found::WokenBy { entry } => push_waker(*entry, chunk),
        Found::Failed { check } => chunk.push(failed_text(*check)),
        Found::Waited => chunk.push(b",\"found\":{\"in_line\":true}"),
    }
}

/// Appends what a load or a wait read.
#[tactic(auto, unfolding(json::specs::Print::escape_byte, crate::specs::JsonLines::FactData::found_data))]
fn push_element(value: Operand, chunk: &mut Chunk)
    requires { length chunk.old + FOUND_LEN ≤ Chunk.ROOM }
    ensures bytes { chunk.new ≡ chunk.old ++ member_text_if (codes "found") (found_data (F.Read value)) }
    ensures len { length chunk.new ≤ length chunk.old + FOUND_LEN }
{
    chunk.push(b",\"found\":{\"element\":");
    push_operand(value, chunk);
    chunk.push(b"}");
}

/// Appends what a store or a read-modify-write wrote.
#[tactic(auto, unfolding(json::specs::Print::escape_byte, crate::specs::JsonLines::FactData::found_data))]
fn push_wrote(before: Operand, after: Operand, chunk: &mut Chunk)
    requires { length chunk.old + FOUND_LEN ≤ Chunk.ROOM }
    ensures bytes { chunk.new ≡ chunk.old ++ member_text_if (codes "found") (found_data (F.Wrote before after)) }
    ensures len { length chunk.new ≤ length chunk.old + FOUND_LEN }
{
    chunk.push(b",\"found\":{\"after\":");
    push_operand(after, chunk);
    chunk.push(b",\"before\":");
    push_operand(before, chunk);
    chunk.push(b"}");
}

/// Appends what a compare-exchange did.
#[tactic(auto, unfolding(json::specs::Print::escape_byte, crate::specs::JsonLines::FactData::found_data))]
fn push_compared(before: Operand, after: Operand, exchanged: bool, chunk: &mut Chunk)
    requires { length chunk.old + FOUND_LEN ≤ Chunk.ROOM }
    ensures bytes { chunk.new
        ≡ chunk.old ++ member_text_if (codes "found") (found_data (F.Compared before after exchanged)) }
    ensures len { length chunk.new ≤ length chunk.old + FOUND_LEN }
{
    chunk.push(b",\"found\":{\"after\":");
    push_operand(after, chunk);
    chunk.push(b",\"before\":");
    push_operand(before, chunk);
    if exchanged {
        chunk.push(b",\"exchanged\":true}");
    } else {
        chunk.push(b",\"exchanged\":false}");
    }
}

/// Appends whom a wait found in line before it.
#[tactic(auto, unfolding(json::specs::Print::escape_byte, crate::specs::JsonLines::FactData::found_data))]
fn push_joined(ahead: &[u32], chunk: &mut Chunk)
    requires few { length ahead.now ≤ MAX_AGENTS }
    requires room { length chunk.old + FOUND_LEN ≤ Chunk.ROOM }
    ensures bytes { chunk.new ≡ chunk.old ++ member_text_if (codes "found") (found_data (F.Joined ahead.now)) }
    ensures len { length chunk.new ≤ length chunk.old + FOUND_LEN }
{
    chunk.push(b",\"found\":{\"ahead\":");
    push_agents(ahead, chunk);
    chunk.push(b"}");
}

/// Appends whom a notify woke, of so many that waited.
#[tactic(auto, unfolding(json::specs::Print::escape_byte, crate::specs::JsonLines::FactData::found_data))]
fn push_notified(woken: &[u32], waiting: u32, chunk: &mut Chunk)
    requires few { length woken.now ≤ MAX_AGENTS }
    requires room { length chunk.old + FOUND_LEN ≤ Chunk.ROOM }
    ensures bytes { chunk.new
        ≡ chunk.old ++ member_text_if (codes "found") (found_data (F.Notified woken.now waiting)) }
    ensures len { length chunk.new ≤ length chunk.old + FOUND_LEN }
{
    chunk.push(b",\"found\":{\"waited\":");
    push_small(waiting, chunk);
    chunk.push(b",\"woken\":");
    push_agents(woken, chunk);
    chunk.push(b"}");
}

/// Appends which entry woke an agent.
#[tactic(auto, unfolding(json::specs::Print::escape_byte, crate::specs::JsonLines::FactData::found_data))]
fn push_waker(entry: u32, chunk: &mut Chunk)
    requires { length chunk.old + FOUND_LEN ≤ Chunk.ROOM }
    ensures bytes { chunk.new ≡ chunk.old ++ member_text_if (codes "found") (found_data (F.WokenBy entry)) }
    ensures len { length chunk.new ≤ length chunk.old + FOUND_LEN }
{
    chunk.push(b",\"found\":{\"woken_by\":");
    chunk.push_number(u64::from(entry));
    chunk.push(b"}");
}

/// What stands for a call that threw, by the first check that failed.
#[tactic(auto, unfolding(json::specs::Print::escape_byte, crate::specs::JsonLines::FactData::found_data))]
fn failed_text(check: Check) -> &'static [u8]
    ensures text { result.now ≡ member_text_if (codes "found") (found_data (F.Failed check)) }
    ensures len { length result.now ≤ 40 }
{
    match check {
        Check::AtomicKind | Check::WaitableKind => b",\"found\":{\"failed\":\"kind\"}",
        Check::Index => b",\"found\":{\"failed\":\"index\"}",
        Check::Operand => b",\"found\":{\"failed\":\"operand\"}",
        Check::CanBlock => b",\"found\":{\"failed\":\"can-block\"}",
    }
}

/// Appends agents, as an array.
fn push_agents(agents: &[u32], chunk: &mut Chunk)
    requires few { length agents.now ≤ MAX_AGENTS }
    requires room { length chunk.old + AGENTS_LEN ≤ Chunk.ROOM }
    ensures bytes { chunk.new ≡ chunk.old ++ compact_text (array (agent_items agents.now)) }
    ensures len { length chunk.new ≤ length chunk.old + AGENTS_LEN }
{
    let [first, others @ ..] = agents else {
        chunk.push(b"[]");
        return;
    };
    chunk.push(b"[");
    push_small(*first, chunk);
    push_next_agents(others, chunk);
}

/// Appends agents, each behind a comma, and closes their array.
fn push_next_agents(agents: &[u32], chunk: &mut Chunk)
    requires { length chunk.old + NEXT_AGENT_LEN * length agents.now + 1 ≤ Chunk.ROOM }
    ensures bytes { chunk.new ≡ chunk.old ++ items_text true (agent_items agents.now) }
    ensures len { length chunk.new ≤ length chunk.old + NEXT_AGENT_LEN * length agents.now + 1 }
{
    for agent in agents {
        chunk.push(b",");
        push_small(*agent, chunk);
    }
    chunk.push(b"]");
}

/// Appends a place, where there is one.
#[tactic(auto, unfolding(json::specs::Print::escape_byte, crate::specs::JsonLines::FactData::place_data))]
pub(crate) fn push_place(place: Option<Place>, chunk: &mut Chunk)
    requires { length chunk.old + PLACE_LEN ≤ Chunk.ROOM }
    ensures bytes { chunk.new ≡ chunk.old ++ member_text_if (codes "place") (option_map place_data place) }
    ensures len { length chunk.new ≤ length chunk.old + PLACE_LEN }
{
    if let Some(place) = place {
        chunk.push(b",\"place\":{\"block\":");
        push_small(place.block, chunk);
        chunk.push(b",\"byte\":");
        chunk.push_number(u64::from(place.byte));
        chunk.push(b"}");
    }
}

/// Appends since which entry an agent stands as it does, where there is one.
pub(crate) fn push_since(since: Option<u32>, chunk: &mut Chunk)
    requires { length chunk.old + SINCE_LEN ≤ Chunk.ROOM }
    ensures bytes { chunk.new ≡ chunk.old ++ member_text_if (codes "since") (option_map natural since) }
    ensures len { length chunk.new ≤ length chunk.old + SINCE_LEN }
{
    if let Some(k) = since {
        chunk.push(b",\"since\":");
        chunk.push_number(u64::from(k));
    }
}
