//! The lines of entries, with words behind them.

ghost use Rattle.std.specs.Prelude.{◌≡◌, ◌+◌, ◌≤◌, ◌++◌, length};
ghost use Rattle.sab_report_text.specs.Text.Lines.{line_if};
ghost use Rattle.sab_report_text.specs.Words.CallText.{call_text};
ghost use Rattle.sab_report_text.specs.Words.FactText.{wait_text, stuck_text, done_text, return_words, called_words};
ghost use Rattle.sab_report_text.specs.Words.FactText.{fact_words};
ghost use Rattle.sab_report_text.specs.Words.Column.{spaced};
ghost use Rattle.sab_report_text.specs.Words.Explained.{explained_line};

use crate::text::{Chunk, Line, prepend_entry};
use crate::words::call_text::{CALL_LEN, push_call, push_stand};
use crate::words::column::Column;
use crate::words::layout::Layout;
use crate::words::name::Name;
use crate::words::outcome_text::push_outcome;
use sab_plan::{Answer, Call, Entry, Explained, Fact, Found, Plan, What, Why};

/// The most bytes of why a wait goes on.
const WAIT_LEN: usize = 205;

/// The most bytes of why a move had no effect.
const STUCK_LEN: usize = 320;

/// The most bytes of the words of an entry: a call, and what came of it.
pub const WORDS_LEN: usize = 1_150;

/// As many spaces as there can be columns before the words.
const SPACES: [u8; Column::MAX] = [b' '; Column::MAX];

/// Appends the line of an entry, if it has one, with its fact in words behind it; it is entry `k` of its journal.
///
/// `sinces` has for each agent the position of its last entry before this one that had an effect.
pub fn push_explained(
    names: &[Name],
    plan: &Plan,
    layout: Layout,
    sinces: &[Option<u32>],
    k: usize,
    explained: &Explained,
    chunk: &mut Chunk,
)
    requires { length chunk.old + Chunk.LINE_ROOM ≤ Chunk.ROOM }
    ensures { chunk.new ≡ chunk.old ++ line_if layout.lines explained.now.entry.what
        (explained_line layout.column.at names.now plan.now sinces.now k explained.now.entry explained.now.fact) }
{
    if layout.lines.has(explained.entry.what) {
        push_line(names, plan, layout.column, sinces, k, explained, chunk);
    }
}

/// Appends the line of an entry, with its fact in words behind it.
fn push_line(
    names: &[Name],
    plan: &Plan,
    column: Column,
    sinces: &[Option<u32>],
    k: usize,
    explained: &Explained,
    chunk: &mut Chunk,
)
    requires { length chunk.old + Chunk.LINE_ROOM ≤ Chunk.ROOM }
    ensures { chunk.new
        ≡ chunk.old ++ explained_line column.at names.now plan.now sinces.now k explained.now.entry explained.now.fact }
{
    let mut line = Line::new();
    prepend_entry(k, &explained.entry, &mut line);
    push_spaced(line.bytes(), column, chunk);
    push_words(
        names,
        plan,
        sinces,
        &explained.entry,
        &explained.fact,
        chunk,
    );
    chunk.push(b"\n");
}

/// Appends a plain text, and spaces up to the column of the words.
pub(crate) fn push_spaced(plain: &[u8], column: Column, chunk: &mut Chunk)
    requires { length chunk.old + length plain.now + Column.MAX ≤ Chunk.ROOM }
    ensures bytes { chunk.new ≡ chunk.old ++ spaced column.at plain.now }
    ensures len { length chunk.new ≤ length chunk.old + length plain.now + Column.MAX }
{
    chunk.push(plain);
    chunk.push(&SPACES[..column.behind(plain.len())]);
}

/// Appends the words of an entry.
///
/// `sinces` has for each agent the position of its last entry before this one that had an effect.
pub fn push_words(
    names: &[Name],
    plan: &Plan,
    sinces: &[Option<u32>],
    entry: &Entry,
    fact: &Fact,
    chunk: &mut Chunk,
)
    requires { length chunk.old + WORDS_LEN ≤ Chunk.ROOM }
    ensures bytes { chunk.new ≡ chunk.old ++ fact_words names.now plan.now sinces.now entry.now fact.now }
    ensures len { length chunk.new ≤ length chunk.old + WORDS_LEN }
{
    match fact.call {
        None => push_done(entry.call, chunk),
        Some(call) => push_called(names, plan, sinces, entry, call, fact, chunk),
    }
}

/// Appends why there is nothing left to call, by how many calls have returned.
fn push_done(returned: u32, chunk: &mut Chunk)
    requires { length chunk.old + WORDS_LEN ≤ Chunk.ROOM }
    ensures bytes { chunk.new ≡ chunk.old ++ done_text returned }
    ensures len { length chunk.new ≤ length chunk.old + WORDS_LEN }
{
    if returned == 0 {
        chunk.push(b"it has no calls");
    } else {
        chunk.push(b"all its calls have returned");
    }
}

/// Appends what an entry did, of an agent that has a call left.
fn push_called(
    names: &[Name],
    plan: &Plan,
    sinces: &[Option<u32>],
    entry: &Entry,
    call: Call,
    fact: &Fact,
    chunk: &mut Chunk,
)
    requires { length chunk.old + WORDS_LEN ≤ Chunk.ROOM }
    ensures bytes { chunk.new
        ≡ chunk.old ++ called_words names.now plan.now sinces.now entry.now.agent call fact.now entry.now.what }
    ensures len { length chunk.new ≤ length chunk.old + WORDS_LEN }
{
    match entry.what {
        What::Began => {
            chunk.push(b"calls ");
            push_call(names, call, chunk);
        }
        What::Returned(answer) => {
            push_return(answer, chunk);
            push_call(names, call, chunk);
        }
        What::Stuck(why) => push_stuck(names, call, why, fact, chunk),
        What::Acted(_) | What::Enlisted | What::Left(_) => {
            push_call(names, call, chunk);
            push_outcome(names, plan, sinces, entry.agent, call, fact, chunk);
        }
    }
}

/// Appends how a call ends that has this answer.
fn push_return(answer: Answer, chunk: &mut Chunk)
    requires { length chunk.old + 14 ≤ Chunk.ROOM }
    ensures bytes { chunk.new ≡ chunk.old ++ return_words answer }
    ensures len { length chunk.new ≤ length chunk.old + 14 }
{
    match answer {
        Answer::Threw(_) => chunk.push(b"throws out of "),
        _ => chunk.push(b"returns from "),
    }
}

/// Appends why a move of an agent that has a call left had no effect.
fn push_stuck(names: &[Name], call: Call, why: Why, fact: &Fact, chunk: &mut Chunk)
    requires { length chunk.old + STUCK_LEN ≤ Chunk.ROOM }
    ensures bytes { chunk.new ≡ chunk.old ++ stuck_text names.now call fact.now.since why fact.now.found }
    ensures len { length chunk.new ≤ length chunk.old + STUCK_LEN }
{
    match &fact.found {
        Found::Waited => {
            chunk.push(b"waits");
            push_stand(names, call, fact.since, chunk);
            push_wait(names, call, why, chunk);
        }
        Found::WokenBy { entry } => {
            chunk.push(b"doesn't wait any more: it was woken by ");
            chunk.push_number(u64::from(*entry));
        }
        _ => chunk.push(b"doesn't wait"),
    }
}

/// Appends why the time of a wait can't be up, or the call that an agent waits in.
fn push_wait(names: &[Name], call: Call, why: Why, chunk: &mut Chunk)
    requires { length chunk.old + WAIT_LEN ≤ Chunk.ROOM }
    ensures bytes { chunk.new ≡ chunk.old ++ wait_text why (call_text names.now call) }
    ensures len { length chunk.new ≤ length chunk.old + WAIT_LEN }
{
    match why {
        Why::Endless => {
            chunk.push(b", and ");
            push_call(names, call, chunk);
            chunk.push(b" has no timeout");
        }
        Why::Done | Why::Waiting | Why::NotWaiting => {
            chunk.push(b", in ");
            push_call(names, call, chunk);
        }
    }
}
