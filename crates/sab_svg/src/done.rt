//! What entries did, as texts in the lanes of their agents.

ghost use Rattle.std.specs.Prelude.{◌≡◌, ◌+◌, ◌≤◌, ◌++◌, length};
ghost use Rattle.sab_svg.specs.Xml.Xml.{node_text, nodes, nodes_text};
ghost use Rattle.sab_svg.specs.Pieces.{class_text, label};
ghost use Rattle.sab_svg.specs.Moves.{answered_text, answered_class, calls_text, stuck_text, done_label};

use crate::class::Class;
use crate::pieces::{LABEL_LEN, push_label};
use sab_plan::{Answer, Call, What, Why};
use sab_report_text::text::{Chunk, Line, prepend_answer, prepend_why};
use sab_report_text::words::{CALL_LEN, Name, push_call};

/// The most bytes of an answer, with what stands before it.
pub(crate) const ANSWERED_LEN: usize = 48;

/// The most bytes of what an entry did: the text of a call, each byte as a reference.
pub(crate) const DONE_LEN: usize = LABEL_LEN + 8 * CALL_LEN;

/// Appends what an entry did, as a text from x on.
pub(crate) fn push_done(
    names: &[Name],
    x: u64,
    y: u64,
    call: Option<Call>,
    what: What,
    scratch: &mut Chunk,
    chunk: &mut Chunk,
)
    requires { length chunk.old + DONE_LEN ≤ Chunk.ROOM }
    ensures bytes { chunk.new ≡ chunk.old ++ nodes_text (nodes (done_label names.now x y call what)) }
    ensures len { length chunk.new ≤ length chunk.old + DONE_LEN }
{
    match what {
        What::Began => push_calls(names, x, y, call, scratch, chunk),
        What::Acted(answer) | What::Left(answer) => push_answered(x, y, answer, chunk),
        What::Enlisted => push_label(Class::Dim, x, y, b"waits", chunk),
        What::Returned(_) => {}
        What::Stuck(why) => push_stuck(x, y, why, chunk),
    }
}

/// Appends a call, where there is one, as a text from x on.
fn push_calls(
    names: &[Name],
    x: u64,
    y: u64,
    call: Option<Call>,
    scratch: &mut Chunk,
    chunk: &mut Chunk,
)
    requires { length chunk.old + DONE_LEN ≤ Chunk.ROOM }
    ensures bytes { chunk.new
        ≡ chunk.old ++ node_text (label (class_text Class.Ink) x y (calls_text names.now call)) }
    ensures len { length chunk.new ≤ length chunk.old + DONE_LEN }
{
    scratch.clear();
    if let Some(call) = call {
        push_call(names, call, scratch);
    }
    push_label(Class::Ink, x, y, scratch.bytes(), chunk);
}

/// Appends an answer, as a text from x on.
fn push_answered(x: u64, y: u64, answer: Answer, chunk: &mut Chunk)
    requires { length chunk.old + DONE_LEN ≤ Chunk.ROOM }
    ensures bytes { chunk.new
        ≡ chunk.old ++ node_text (label (answered_class answer) x y (answered_text answer)) }
    ensures len { length chunk.new ≤ length chunk.old + DONE_LEN }
{
    push_label(class_of(answer), x, y, answered(answer).bytes(), chunk);
}

/// The class of an answer's text.
fn class_of(answer: Answer) -> Class
    ensures { class_text result ≡ answered_class answer }
{
    match answer {
        Answer::Threw(_) => Class::Error,
        _ => Class::Answer,
    }
}

/// The text of an answer.
pub(crate) fn answered(answer: Answer) -> Line
    ensures text { result ≡ answered_text answer }
    ensures len { length result ≤ ANSWERED_LEN }
{
    let mut line = Line::new();
    prepend_answer(answer, &mut line);
    match answer {
        Answer::Threw(_) => line.prepend(b"throws "),
        _ => line.prepend(b"= "),
    }
    line
}

/// Appends why a move had no effect, as a text from x on.
fn push_stuck(x: u64, y: u64, why: Why, chunk: &mut Chunk)
    requires { length chunk.old + DONE_LEN ≤ Chunk.ROOM }
    ensures bytes { chunk.new ≡ chunk.old ++ node_text (label (class_text Class.Dim) x y (stuck_text why)) }
    ensures len { length chunk.new ≤ length chunk.old + DONE_LEN }
{
    let mut line = Line::new();
    prepend_why(why, &mut line);
    line.prepend(b"stuck: ");
    push_label(Class::Dim, x, y, line.bytes(), chunk);
}
