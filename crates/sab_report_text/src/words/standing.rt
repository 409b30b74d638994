//! The lines of agents at the end, with words behind them.

ghost use Rattle.std.specs.Prelude.{◌≡◌, ◌+◌, ◌≤◌, ◌++◌, length};
ghost use Rattle.sab_report_text.specs.Words.CallText.{call_text, element_text};
ghost use Rattle.sab_report_text.specs.Words.Explained.{passed_text, at_text, begun_text, waits_text, unleft_text};
ghost use Rattle.sab_report_text.specs.Words.Explained.{standing_words};
ghost use Rattle.sab_report_text.specs.Words.Explained.{standing_line};

use crate::text::{Chunk, Line, prepend_agent};
use crate::words::call_text::{push_call, push_element, push_stand};
use crate::words::column::Column;
use crate::words::explained::push_spaced;
use crate::words::name::Name;
use sab_plan::{At, Call, Progress, Standing};

/// The most bytes of whether a place was notified.
const PASSED_LEN: usize = 120;

/// The most bytes of where an agent stands.
pub const STANDING_LEN: usize = 420;

/// Appends the line of agent `a`, with words behind it where some of its calls haven't returned.
pub fn push_standing(
    names: &[Name],
    a: usize,
    progress: &Progress,
    standing: Option<Standing>,
    column: Column,
    chunk: &mut Chunk,
)
    requires { length chunk.old + Chunk.LINE_ROOM ≤ Chunk.ROOM }
    ensures { chunk.new ≡ chunk.old ++ standing_line column.at names.now a progress.now standing }
{
    let mut line = Line::new();
    prepend_agent(a, progress, &mut line);
    match standing {
        None => chunk.push(line.bytes()),
        Some(standing) => {
            push_spaced(line.bytes(), column, chunk);
            push_standing_words(names, standing, chunk);
        }
    }
    chunk.push(b"\n");
}

/// Appends where an agent stands, in words.
pub fn push_standing_words(names: &[Name], standing: Standing, chunk: &mut Chunk)
    requires { length chunk.old + STANDING_LEN ≤ Chunk.ROOM }
    ensures bytes { chunk.new ≡ chunk.old ++ standing_words names.now standing }
    ensures len { length chunk.new ≤ length chunk.old + STANDING_LEN }
{
    let call = standing.call;
    match standing.at {
        At::Ready => {
            chunk.push(b"hasn't begun ");
            push_call(names, call, chunk);
        }
        At::Begun => push_begun(names, call, standing.since, chunk),
        At::Waits { notified } => push_waits(names, call, standing.since, notified, chunk),
        At::Woken { entry } => push_unleft(names, call, entry, chunk),
        At::Answered => {
            chunk.push(b"hasn't returned from ");
            push_call(names, call, chunk);
        }
    }
}

/// Appends that a call has begun, and at which entry, where that is known.
fn push_begun(names: &[Name], call: Call, since: Option<u32>, chunk: &mut Chunk)
    requires { length chunk.old + STANDING_LEN ≤ Chunk.ROOM }
    ensures bytes { chunk.new ≡ chunk.old ++ begun_text (call_text names.now call) since }
    ensures len { length chunk.new ≤ length chunk.old + STANDING_LEN }
{
    chunk.push(b"began ");
    push_call(names, call, chunk);
    push_at(since, chunk);
    chunk.push(b" and hasn't acted");
}

/// Appends an entry, where there is one.
fn push_at(since: Option<u32>, chunk: &mut Chunk)
    requires { length chunk.old + 24 ≤ Chunk.ROOM }
    ensures bytes { chunk.new ≡ chunk.old ++ at_text since }
    ensures len { length chunk.new ≤ length chunk.old + 24 }
{
    if let Some(k) = since {
        chunk.push(b" at ");
        chunk.push_number(u64::from(k));
    }
}

/// Appends that an agent waits, and whether its place was notified since.
fn push_waits(names: &[Name], call: Call, since: Option<u32>, notified: bool, chunk: &mut Chunk)
    requires { length chunk.old + STANDING_LEN ≤ Chunk.ROOM }
    ensures bytes { chunk.new
        ≡ chunk.old ++ waits_text (call_text names.now call) (element_text names.now call) since notified }
    ensures len { length chunk.new ≤ length chunk.old + STANDING_LEN }
{
    chunk.push(b"waits");
    push_stand(names, call, since, chunk);
    chunk.push(b", in ");
    push_call(names, call, chunk);
    push_passed(names, call, notified, chunk);
}

/// Appends whether a place was notified while an agent waits there.
fn push_passed(names: &[Name], call: Call, notified: bool, chunk: &mut Chunk)
    requires { length chunk.old + PASSED_LEN ≤ Chunk.ROOM }
    ensures bytes { chunk.new ≡ chunk.old ++ passed_text (element_text names.now call) notified }
    ensures len { length chunk.new ≤ length chunk.old + PASSED_LEN }
{
    if notified {
        chunk.push(b"; ");
        push_element(names, call, chunk);
        chunk.push(b" was notified since, waking others or nobody");
    } else {
        chunk.push(b"; nobody has notified ");
        push_element(names, call, chunk);
        chunk.push(b" since");
    }
}

/// Appends that an agent was woken and hasn't left its wait.
fn push_unleft(names: &[Name], call: Call, entry: u32, chunk: &mut Chunk)
    requires { length chunk.old + STANDING_LEN ≤ Chunk.ROOM }
    ensures bytes { chunk.new ≡ chunk.old ++ unleft_text (call_text names.now call) entry }
    ensures len { length chunk.new ≤ length chunk.old + STANDING_LEN }
{
    chunk.push(b"was woken by ");
    chunk.push_number(u64::from(entry));
    chunk.push(b" and hasn't left ");
    push_call(names, call, chunk);
}
