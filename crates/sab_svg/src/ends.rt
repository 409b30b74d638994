//! Who isn't done when a run ends.

ghost use Rattle.std.specs.Prelude.{◌≡◌, ◌+◌, ◌≤◌, ◌++◌, [], ◌∷◌, length, OnOk};
ghost use Rattle.std.specs.Io.KnownBytes.{Appends, append_known};
ghost use Rattle.sab_svg.specs.Xml.Xml.{nodes, nodes_text};
ghost use Rattle.sab_svg.specs.Pieces.{class_text, newline};
ghost use Rattle.sab_svg.specs.Ends.{open_call, open_wait, open_bar, end_text, end_class, drawn_standing, drawn_end};
ghost use Rattle.sab_svg.specs.Ends.{drawn_ends};

use crate::class::Class;
use crate::pieces::{
    AGENT_LEN, GROUP_LEN, LABEL_LEN, RECTANGLE_LEN, open_group, push_agent, push_label,
    push_open_call_bar, push_open_wait_bar,
};
use crate::shape::{Shape, row_middle, row_text};
use sab_plan::{At, Standing};
use sab_report_text::text::Chunk;
use sab_report_text::words::{Name, STANDING_LEN, push_standing_words, standing_at};
use std::io;
use std::io::Write;

/// The most bytes of how far an agent came.
const END_TEXT_LEN: usize = 16;

/// The most bytes of an agent that isn't done: its words, each byte as a reference, a bar and how far it came.
const END_LEN: usize = GROUP_LEN
    + 8 * (AGENT_LEN + STANDING_LEN)
    + RECTANGLE_LEN
    + LABEL_LEN
    + 8 * END_TEXT_LEN
    + 5;

/// Writes where each agent stands that isn't done; the last may stay in the chunk. What the scratch held is lost.
#[tactic(auto, using(sab_report_text::proofs::OfText::Appending::all_left, sab_report_text::proofs::OfText::Appending::none_left, crate::proofs::Writing::ends_after))]
pub(crate) fn write_ends<W: Write>(
    names: &[Name],
    shape: Shape,
    standings: &[Option<Standing>],
    scratch: &mut Chunk,
    chunk: &mut Chunk,
    w: &mut W,
) -> io::Result<()>
    ensures { OnOk result (Appends (append_known (W.contents w.old) chunk.old)
        (append_known (W.contents w.new) chunk.new)
        (nodes_text (nodes (drawn_ends names.now shape standings.now 0 shape.agents)))) }
{
    for a in 0..shape.agents {
        chunk.make_room_for(END_LEN, w)?;
        push_end(
            names,
            shape,
            a,
            standing_at(standings, a as usize),
            scratch,
            chunk,
        );
    }
    Ok(())
}

/// Appends where an agent stands, if it isn't done.
fn push_end(
    names: &[Name],
    shape: Shape,
    a: u32,
    standing: Option<Standing>,
    scratch: &mut Chunk,
    chunk: &mut Chunk,
)
    requires { length chunk.old + END_LEN ≤ Chunk.ROOM }
    ensures { chunk.new ≡ chunk.old ++ nodes_text (nodes (drawn_end names.now shape a standing)) }
{
    if let Some(standing) = standing {
        push_standing(names, shape, a, standing, scratch, chunk);
    }
}

/// Appends where an agent stands, with it in words for a pointer, and a line feed.
fn push_standing(
    names: &[Name],
    shape: Shape,
    a: u32,
    standing: Standing,
    scratch: &mut Chunk,
    chunk: &mut Chunk,
)
    requires { length chunk.old + END_LEN ≤ Chunk.ROOM }
    ensures { chunk.new ≡ chunk.old ++ nodes_text (nodes (drawn_standing names.now shape a standing ∷ newline ∷ [])) }
{
    scratch.clear();
    push_agent(a, scratch);
    push_standing_words(names, standing, scratch);
    open_group(scratch.bytes(), chunk);
    push_open_bar(shape, a, standing.since, standing.at, chunk);
    let y = row_text(u64::from(shape.rows));
    push_label(
        end_class(standing.at),
        shape.label_x(a),
        y,
        end_text(standing.at),
        chunk,
    );
    chunk.push(b"</g>\n");
}

/// Appends the bar of a call that hasn't returned, to the end of the last row.
fn push_open_bar(shape: Shape, a: u32, since: Option<u32>, at: At, chunk: &mut Chunk)
    requires { length chunk.old + RECTANGLE_LEN ≤ Chunk.ROOM }
    ensures bytes { chunk.new ≡ chunk.old ++ nodes_text (nodes (open_bar shape a since at)) }
    ensures len { length chunk.new ≤ length chunk.old + RECTANGLE_LEN }
{
    match at {
        At::Ready => {}
        At::Begun | At::Answered => push_open_call(shape, a, since, chunk),
        At::Waits { .. } | At::Woken { .. } => push_open_wait(shape, a, since, chunk),
    }
}

/// Appends the time that an agent is in a call, from the row of an entry, where there is one.
fn push_open_call(shape: Shape, a: u32, since: Option<u32>, chunk: &mut Chunk)
    requires { length chunk.old + RECTANGLE_LEN ≤ Chunk.ROOM }
    ensures bytes { chunk.new ≡ chunk.old ++ nodes_text (nodes (open_call shape a since)) }
    ensures len { length chunk.new ≤ length chunk.old + RECTANGLE_LEN }
{
    if let Some(j) = since {
        push_open_call_bar(
            shape.lane_x(a),
            row_middle(u64::from(j)),
            shape.rows_end(),
            chunk,
        );
    }
}

/// Appends the time that an agent waits, from the row of an entry, where there is one.
fn push_open_wait(shape: Shape, a: u32, since: Option<u32>, chunk: &mut Chunk)
    requires { length chunk.old + RECTANGLE_LEN ≤ Chunk.ROOM }
    ensures bytes { chunk.new ≡ chunk.old ++ nodes_text (nodes (open_wait shape a since)) }
    ensures len { length chunk.new ≤ length chunk.old + RECTANGLE_LEN }
{
    if let Some(j) = since {
        push_open_wait_bar(
            shape.lane_x(a),
            row_middle(u64::from(j)),
            shape.rows_end(),
            chunk,
        );
    }
}

/// How far an agent came.
fn end_text(at: At) -> &'static [u8]
    ensures text { result.now ≡ end_text at }
    ensures len { length result.now ≤ END_TEXT_LEN }
{
    match at {
        At::Ready => b"hasn't begun",
        At::Begun => b"hasn't acted",
        At::Waits { .. } => b"still waits",
        At::Woken { .. } => b"hasn't left",
        At::Answered => b"hasn't returned",
    }
}

/// The class of how far an agent came.
fn end_class(at: At) -> Class
    ensures { class_text result ≡ end_class at }
{
    match at {
        At::Ready => Class::Dim,
        At::Begun | At::Waits { .. } | At::Woken { .. } | At::Answered => Class::Error,
    }
}
