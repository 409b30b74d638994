//! Who waits, and who is woken.

ghost use Rattle.std.specs.Prelude.{◌≡◌, ◌+◌, ◌<◌, ◌≤◌, ◌++◌, length};
ghost use Rattle.sab_plan.specs.declared.plan.TheConstants.Plan.{MAX_AGENTS};
ghost use Rattle.sab_report_text.specs.Words.CallText.{element_text};
ghost use Rattle.sab_report_text.specs.Words.FactText.{ahead_text, unwoken_text, idle_text, nobody_text};
ghost use Rattle.sab_report_text.specs.Words.FactText.{one_woken_text};
ghost use Rattle.sab_report_text.specs.Words.FactText.{more_woken_text, woken_text, still_text, some_text};
ghost use Rattle.sab_report_text.specs.Words.FactText.{notified_text};

use crate::text::Chunk;
use crate::words::call_text::push_element;
use crate::words::counts::{
    push_counted, push_next_agents, push_next_sleepers, push_since_of, push_sleeper,
};
use crate::words::name::Name;
use sab_plan::{Call, Waiters};

/// The most bytes of who is ahead: words, and 16 agents.
pub(crate) const AHEAD_LEN: usize = 400;

/// The most bytes of why a notify wakes nobody: words, and a number.
const IDLE_LEN: usize = 64;

/// The most bytes of what a notify does that wakes nobody.
const NOBODY_LEN: usize = 160;

/// The most bytes of who is woken: words, an element and 16 agents.
const WOKEN_LEN: usize = 890;

/// The most bytes of how many wait on.
const STILL_LEN: usize = 38;

/// The most bytes of what a notify did.
pub(crate) const NOTIFIED_LEN: usize = 940;

/// Appends who is before an agent in line.
pub(crate) fn push_ahead(ahead: &Waiters, chunk: &mut Chunk)
    requires { length chunk.old + AHEAD_LEN ≤ Chunk.ROOM }
    ensures bytes { chunk.new ≡ chunk.old ++ ahead_text ahead.now }
    ensures len { length chunk.new ≤ length chunk.old + AHEAD_LEN }
{
    let [first, others @ ..] = ahead.agents() else {
        chunk.push(b", first in line");
        return;
    };
    chunk.push(b" behind agent");
    if !others.is_empty() {
        chunk.push(b"s");
    }
    chunk.push(b" ");
    chunk.push_number(u64::from(*first));
    push_next_agents(others, chunk);
}

/// Appends whom a notify wakes, of so many that waited.
pub(crate) fn push_notified(
    names: &[Name],
    call: Call,
    sinces: &[Option<u32>],
    woken: &Waiters,
    waiting: u32,
    chunk: &mut Chunk,
)
    requires { length chunk.old + NOTIFIED_LEN ≤ Chunk.ROOM }
    ensures bytes { chunk.new ≡ chunk.old ++ notified_text (element_text names.now call) sinces.now woken.now waiting }
    ensures len { length chunk.new ≤ length chunk.old + NOTIFIED_LEN }
{
    match woken.agents() {
        [] => push_nobody(names, call, waiting, chunk),
        [first, others @ ..] => push_some(names, call, sinces, *first, others, waiting, chunk),
    }
}

/// Appends what a notify does that wakes one agent and others, of so many that waited.
fn push_some(
    names: &[Name],
    call: Call,
    sinces: &[Option<u32>],
    first: u32,
    others: &[u32],
    waiting: u32,
    chunk: &mut Chunk,
)
    requires few { length others.now < MAX_AGENTS }
    requires room { length chunk.old + NOTIFIED_LEN ≤ Chunk.ROOM }
    ensures bytes { chunk.new
        ≡ chunk.old ++ some_text (element_text names.now call) sinces.now first others.now waiting }
    ensures len { length chunk.new ≤ length chunk.old + NOTIFIED_LEN }
{
    chunk.push(b" wakes ");
    push_woken(names, call, sinces, first, others, chunk);
    push_still(waiting.saturating_sub(others.len() as u32 + 1), chunk);
}

/// Appends what a notify does that wakes nobody, where so many wait.
fn push_nobody(names: &[Name], call: Call, waiting: u32, chunk: &mut Chunk)
    requires { length chunk.old + NOBODY_LEN ≤ Chunk.ROOM }
    ensures bytes { chunk.new ≡ chunk.old ++ nobody_text (element_text names.now call) waiting }
    ensures len { length chunk.new ≤ length chunk.old + NOBODY_LEN }
{
    chunk.push(b" wakes nobody: ");
    push_idle(waiting, chunk);
    chunk.push(b" at ");
    push_element(names, call, chunk);
}

/// Appends why a notify wakes nobody.
fn push_idle(waiting: u32, chunk: &mut Chunk)
    requires { length chunk.old + IDLE_LEN ≤ Chunk.ROOM }
    ensures bytes { chunk.new ≡ chunk.old ++ idle_text waiting }
    ensures len { length chunk.new ≤ length chunk.old + IDLE_LEN }
{
    if waiting == 0 {
        chunk.push(b"nobody waits");
    } else {
        push_unwoken(waiting, chunk);
    }
}

/// Appends why a notify wakes nobody of those that wait.
fn push_unwoken(waiting: u32, chunk: &mut Chunk)
    requires { length chunk.old + IDLE_LEN ≤ Chunk.ROOM }
    ensures bytes { chunk.new ≡ chunk.old ++ unwoken_text waiting }
    ensures len { length chunk.new ≤ length chunk.old + IDLE_LEN }
{
    chunk.push(b"its count is below 1, and ");
    push_counted(waiting, b" agent waits", b" agents wait", chunk);
}

/// Appends the agents that a notify wakes: one, and the others.
fn push_woken(
    names: &[Name],
    call: Call,
    sinces: &[Option<u32>],
    first: u32,
    others: &[u32],
    chunk: &mut Chunk,
)
    requires few { length others.now < MAX_AGENTS }
    requires room { length chunk.old + WOKEN_LEN ≤ Chunk.ROOM }
    ensures bytes { chunk.new ≡ chunk.old ++ woken_text (element_text names.now call) sinces.now first others.now }
    ensures len { length chunk.new ≤ length chunk.old + WOKEN_LEN }
{
    if others.is_empty() {
        push_one_woken(names, call, sinces, first, chunk);
    } else {
        push_more_woken(names, call, sinces, first, others, chunk);
    }
}

/// Appends the one agent that a notify wakes.
fn push_one_woken(names: &[Name], call: Call, sinces: &[Option<u32>], agent: u32, chunk: &mut Chunk)
    requires { length chunk.old + WOKEN_LEN ≤ Chunk.ROOM }
    ensures bytes { chunk.new ≡ chunk.old ++ one_woken_text (element_text names.now call) sinces.now agent }
    ensures len { length chunk.new ≤ length chunk.old + WOKEN_LEN }
{
    chunk.push(b"agent ");
    chunk.push_number(u64::from(agent));
    chunk.push(b", which waited at ");
    push_element(names, call, chunk);
    push_since_of(sinces, agent, chunk);
}

/// Appends the agents that a notify wakes: one, and the others.
fn push_more_woken(
    names: &[Name],
    call: Call,
    sinces: &[Option<u32>],
    first: u32,
    others: &[u32],
    chunk: &mut Chunk,
)
    requires few { length others.now < MAX_AGENTS }
    requires room { length chunk.old + WOKEN_LEN ≤ Chunk.ROOM }
    ensures bytes { chunk.new ≡ chunk.old ++ more_woken_text (element_text names.now call) sinces.now first others.now }
    ensures len { length chunk.new ≤ length chunk.old + WOKEN_LEN }
{
    chunk.push(b"agents that waited at ");
    push_element(names, call, chunk);
    chunk.push(b": ");
    push_sleeper(sinces, first, chunk);
    push_next_sleepers(sinces, others, chunk);
}

/// Appends how many wait on.
fn push_still(n: u32, chunk: &mut Chunk)
    requires { length chunk.old + STILL_LEN ≤ Chunk.ROOM }
    ensures bytes { chunk.new ≡ chunk.old ++ still_text n }
    ensures len { length chunk.new ≤ length chunk.old + STILL_LEN }
{
    if n > 0 {
        chunk.push(b"; ");
        push_counted(n, b" still waits", b" still wait", chunk);
    }
}
