//! Arrows from entries to the agents that they woke.

ghost use Rattle.std.specs.Prelude.{◌≡◌, ◌+◌, ◌*◌, ◌≤◌, ◌++◌, length, map};
ghost use Rattle.sab_svg.specs.Xml.Xml.{node_text, nodes, nodes_text};
ghost use Rattle.sab_svg.specs.Moves.{arrow, answer_chars, arrows};

use crate::class::Class;
use crate::done::{ANSWERED_LEN, answered};
use crate::measuring::CHAR_WIDTH;
use crate::pieces::{LINE_LEN, push_across};
use crate::shape::{Shape, row_middle};
use sab_plan::{Entry, Found, Plan, What};
use sab_report_text::text::Chunk;

/// From the end of a text to an arrow's start.
const TEXT_GAP: u64 = 4;

/// From the middle of a lane to the start of an arrow.
const START_GAP: u64 = 8;

/// From the tip of an arrow to the middle of a lane.
const TIP_GAP: u64 = 10;

/// The most bytes of the arrows of an entry: one to each agent that a plan can have.
pub(crate) const ARROWS_LEN: usize = Plan::MAX_AGENTS * LINE_LEN;

/// Appends an arrow to each agent that the entry in row k woke.
pub(crate) fn push_arrows(shape: Shape, k: u32, entry: &Entry, found: &Found, chunk: &mut Chunk)
    requires { length chunk.old + ARROWS_LEN ≤ Chunk.ROOM }
    ensures bytes { chunk.new ≡ chunk.old ++ nodes_text (nodes (arrows shape k entry.now found.now)) }
    ensures len { length chunk.new ≤ length chunk.old + ARROWS_LEN }
{
    if let Found::Notified { woken, .. } = found {
        push_arrows_to(
            shape,
            k,
            entry.agent,
            answer_chars(entry.what),
            woken.agents(),
            chunk,
        );
    }
}

/// How many characters the text of an entry has that stands where an arrow could begin.
fn answer_chars(what: What) -> usize
    ensures count { result ≡ answer_chars what }
    ensures few { result ≤ ANSWERED_LEN }
{
    match what {
        What::Acted(answer) => answered(answer).bytes().len(),
        _ => 0,
    }
}

/// Appends an arrow in row k from an agent, behind so many characters, to each of these.
fn push_arrows_to(shape: Shape, k: u32, a: u32, chars: usize, agents: &[u32], chunk: &mut Chunk)
    requires short { chars ≤ ANSWERED_LEN }
    requires room { length chunk.old + LINE_LEN * length agents.now ≤ Chunk.ROOM }
    ensures bytes { chunk.new ≡ chunk.old ++ nodes_text (nodes (map (arrow shape k a chars) agents.now)) }
    ensures len { length chunk.new ≤ length chunk.old + LINE_LEN * length agents.now }
{
    for b in agents {
        push_arrow(shape, k, a, chars, *b, chunk);
    }
}

/// Appends an arrow in row k from an agent, behind so many characters where it goes to the right, to another.
fn push_arrow(shape: Shape, k: u32, a: u32, chars: usize, b: u32, chunk: &mut Chunk)
    requires short { chars ≤ ANSWERED_LEN }
    requires room { length chunk.old + LINE_LEN ≤ Chunk.ROOM }
    ensures bytes { chunk.new ≡ chunk.old ++ node_text (arrow shape k a chars b) }
    ensures len { length chunk.new ≤ length chunk.old + LINE_LEN }
{
    let y = row_middle(u64::from(k));
    if a < b {
        let start = shape.label_x(a) + u64::from(CHAR_WIDTH) * chars as u64 + TEXT_GAP;
        let tip = shape.lane_x(b).saturating_sub(TIP_GAP);
        push_across(Class::Wake, start, y, tip, chunk);
    } else {
        let start = shape.lane_x(a).saturating_sub(START_GAP);
        push_across(Class::Wake, start, y, shape.lane_x(b) + TIP_GAP, chunk);
    }
}
