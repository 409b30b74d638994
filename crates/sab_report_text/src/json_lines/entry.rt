//! The lines of entries.

ghost use Rattle.std.specs.Prelude.{◌≡◌, ◌+◌, ◌≤◌, ◌++◌, true, length, codes, option_map};
ghost use Rattle.serde_json.specs.Data.{string, no_members, member};
ghost use Rattle.serde_json.specs.Written.{members_text};
ghost use Rattle.sab_report_text.specs.Text.Lines.{line_if};
ghost use Rattle.sab_report_text.specs.JsonLines.Members.{member_if, member_text, member_text_if};
ghost use Rattle.sab_report_text.specs.JsonLines.CallData.{AreNames, call_data};
ghost use Rattle.sab_report_text.specs.JsonLines.FactData.{answer_data, answer_in, what_name, why_in, entry_data};
ghost use Rattle.sab_report_text.specs.JsonLines.Lines.{line};

use crate::json_lines::call::{CALL_LEN, OPERAND_LEN, push_call_data, push_operand};
use crate::json_lines::found::{push_found, push_place, push_since};
use crate::json_lines::small::push_small;
use crate::text::{Chunk, Lines};
use crate::words::Name;
use sab_block::Thrown;
use sab_plan::{Answer, Call, Entry, Fact, What, Why};

/// The most bytes of an answer.
const ANSWER_LEN: usize = 52;

/// The most bytes of a call as a member.
const DOES_LEN: usize = 200;

/// Appends the line of an entry, which is entry `k` of its journal, if it has one.
pub(crate) fn push_entry_if(
    names: &[Name],
    lines: Lines,
    k: usize,
    entry: &Entry,
    fact: &Fact,
    chunk: &mut Chunk,
)
    requires names { AreNames names.now }
    requires room { length chunk.old + Chunk.LINE_ROOM ≤ Chunk.ROOM }
    ensures { chunk.new
        ≡ chunk.old ++ line_if lines entry.now.what (line (entry_data names.now k entry.now fact.now)) }
{
    if lines.has(entry.what) {
        push_entry(names, k, entry, fact, chunk);
    }
}

/// Appends the line of an entry, which is entry `k` of its journal.
fn push_entry(names: &[Name], k: usize, entry: &Entry, fact: &Fact, chunk: &mut Chunk)
    requires names { AreNames names.now }
    requires room { length chunk.old + Chunk.LINE_ROOM ≤ Chunk.ROOM }
    ensures { chunk.new ≡ chunk.old ++ line (entry_data names.now k entry.now fact.now) }
{
    chunk.push(b"{\"agent\":");
    push_small(entry.agent, chunk);
    push_answer_in(entry.what, chunk);
    chunk.push(b",\"call\":");
    chunk.push_number(u64::from(entry.call));
    push_does(names, fact.call, chunk);
    chunk.push(b",\"entry\":");
    chunk.push_number(k as u64);
    push_found(&fact.found, chunk);
    push_place(fact.place, chunk);
    push_since(fact.since, chunk);
    chunk.push(end_of(entry.what));
}

/// Appends what a move answered, where it did.
fn push_answer_in(what: What, chunk: &mut Chunk)
    requires { length chunk.old + ANSWER_LEN ≤ Chunk.ROOM }
    ensures bytes { chunk.new ≡ chunk.old ++ member_text_if (codes "answer") (answer_in what) }
    ensures len { length chunk.new ≤ length chunk.old + ANSWER_LEN }
{
    match what {
        What::Acted(answer) | What::Left(answer) | What::Returned(answer) => {
            push_answer(answer, chunk);
        }
        What::Began | What::Enlisted | What::Stuck(_) => {}
    }
}

/// Appends an answer, as a member.
#[tactic(auto, unfolding(json::specs::Print::escape_byte, crate::specs::JsonLines::FactData::answer_data))]
fn push_answer(answer: Answer, chunk: &mut Chunk)
    requires { length chunk.old + ANSWER_LEN ≤ Chunk.ROOM }
    ensures bytes { chunk.new ≡ chunk.old ++ member_text (codes "answer") (answer_data answer) }
    ensures len { length chunk.new ≤ length chunk.old + ANSWER_LEN }
{
    match answer {
        Answer::Value(operand) => {
            chunk.push(b",\"answer\":");
            push_operand(operand, chunk);
        }
        Answer::Woken => chunk.push(b",\"answer\":\"ok\""),
        Answer::NotEqual => chunk.push(b",\"answer\":\"not-equal\""),
        Answer::TimedOut => chunk.push(b",\"answer\":\"timed-out\""),
        Answer::Count(n) => {
            chunk.push(b",\"answer\":");
            push_small(n, chunk);
        }
        Answer::Threw(Thrown::TypeError) => chunk.push(b",\"answer\":\"TypeError\""),
        Answer::Threw(Thrown::RangeError) => chunk.push(b",\"answer\":\"RangeError\""),
    }
}

/// Appends a call, as a member, where there is one.
fn push_does(names: &[Name], call: Option<Call>, chunk: &mut Chunk)
    requires names { AreNames names.now }
    requires room { length chunk.old + DOES_LEN ≤ Chunk.ROOM }
    ensures bytes { chunk.new ≡ chunk.old ++ member_text_if (codes "does") (option_map (call_data names.now) call) }
    ensures len { length chunk.new ≤ length chunk.old + DOES_LEN }
{
    if let Some(call) = call {
        chunk.push(b",\"does\":");
        push_call_data(names, call, chunk);
    }
}

/// What ends the line of an entry: what its move did, and why it had no effect.
#[tactic(auto, unfolding(json::specs::Print::escape_byte))]
fn end_of(what: What) -> &'static [u8]
    ensures text { result.now
        ≡ members_text true (member (codes "what") (string (what_name what)) (member_if (codes "why") (why_in what)
        no_members)) ++ codes "\n" }
    ensures len { length result.now ≤ 48 }
{
    match what {
        What::Began => b",\"what\":\"begin\"}\n",
        What::Acted(_) => b",\"what\":\"act\"}\n",
        What::Enlisted => b",\"what\":\"wait\"}\n",
        What::Left(_) => b",\"what\":\"leave\"}\n",
        What::Returned(_) => b",\"what\":\"return\"}\n",
        What::Stuck(Why::Done) => b",\"what\":\"stuck\",\"why\":\"done\"}\n",
        What::Stuck(Why::Waiting) => b",\"what\":\"stuck\",\"why\":\"waiting\"}\n",
        What::Stuck(Why::NotWaiting) => b",\"what\":\"stuck\",\"why\":\"not-waiting\"}\n",
        What::Stuck(Why::Endless) => b",\"what\":\"stuck\",\"why\":\"endless\"}\n",
    }
}
