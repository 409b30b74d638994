//! The line of an entry.

ghost use Rattle.std.specs.Prelude.{◌≡◌, ◌+◌, ◌≤◌, ◌++◌, length};
ghost use Rattle.sab_report_text.specs.Text.Text.{operand_text, answer_text, why_text, what_text, entry_text};
ghost use Rattle.sab_report_text.specs.Text.Text.{entry_line};
ghost use Rattle.sab_report_text.specs.Text.Lines.{line_if};

use crate::text::chunk::Chunk;
use crate::text::line::Line;
use crate::text::lines::Lines;
use sab_block::{Operand, Thrown};
use sab_plan::{Answer, Entry, What, Why};

/// The most bytes of an answer: a sign, 39 digits and `n`.
pub const ANSWER_LEN: usize = 41;

/// The most bytes of what a move did: `return `, and an answer.
const WHAT_LEN: usize = 48;

/// The most bytes of an entry's text: three numbers, and what a move did.
const ENTRY_LEN: usize = 111;

/// Appends the line of an entry, if it has one; it is entry `k` of its journal.
pub fn push_entry(lines: Lines, k: usize, entry: &Entry, chunk: &mut Chunk)
    requires { length chunk.old + Chunk.LINE_ROOM ≤ Chunk.ROOM }
    ensures { chunk.new ≡ chunk.old ++ line_if lines entry.now.what (entry_line k entry.now) }
{
    if !lines.has(entry.what) {
        return;
    }
    let mut line = Line::new();
    line.prepend(b"\n");
    prepend_entry(k, entry, &mut line);
    chunk.push(line.bytes());
}

/// Prepends the text of an entry, its line without the line feed; it is entry `k` of its journal.
pub fn prepend_entry(k: usize, entry: &Entry, line: &mut Line)
    requires { length line.old + ENTRY_LEN ≤ Line.ROOM }
    ensures { line.new ≡ entry_text k entry.now ++ line.old }
{
    prepend_what(entry.what, line);
    line.prepend_field(u64::from(entry.call));
    line.prepend_field(u64::from(entry.agent));
    line.prepend_field(k as u64);
}

/// Prepends what a move did.
fn prepend_what(what: What, line: &mut Line)
    requires { length line.old + WHAT_LEN ≤ Line.ROOM }
    ensures bytes { line.new ≡ what_text what ++ line.old }
    ensures len { length line.new ≤ length line.old + WHAT_LEN }
{
    match what {
        What::Began => line.prepend(b"begin"),
        What::Acted(answer) => {
            prepend_answer(answer, line);
            line.prepend(b"act ");
        }
        What::Enlisted => line.prepend(b"wait"),
        What::Left(answer) => {
            prepend_answer(answer, line);
            line.prepend(b"leave ");
        }
        What::Returned(answer) => {
            prepend_answer(answer, line);
            line.prepend(b"return ");
        }
        What::Stuck(why) => {
            prepend_why(why, line);
            line.prepend(b"stuck ");
        }
    }
}

/// Prepends an answer.
pub fn prepend_answer(answer: Answer, line: &mut Line)
    requires { length line.old + ANSWER_LEN ≤ Line.ROOM }
    ensures bytes { line.new ≡ answer_text answer ++ line.old }
    ensures len { length line.new ≤ length line.old + ANSWER_LEN }
{
    match answer {
        Answer::Value(operand) => prepend_operand(operand, line),
        Answer::Woken => line.prepend(b"ok"),
        Answer::NotEqual => line.prepend(b"not-equal"),
        Answer::TimedOut => line.prepend(b"timed-out"),
        Answer::Count(n) => line.prepend_number(u64::from(n)),
        Answer::Threw(Thrown::TypeError) => line.prepend(b"TypeError"),
        Answer::Threw(Thrown::RangeError) => line.prepend(b"RangeError"),
    }
}

/// Prepends an operand.
fn prepend_operand(operand: Operand, line: &mut Line)
    requires { length line.old + ANSWER_LEN ≤ Line.ROOM }
    ensures bytes { line.new ≡ operand_text operand ++ line.old }
    ensures len { length line.new ≤ length line.old + ANSWER_LEN }
{
    if operand.is_big() {
        line.prepend(b"n");
    }
    line.prepend_whole(operand.whole());
}

/// Prepends why a move had no effect.
pub fn prepend_why(why: Why, line: &mut Line)
    requires { length line.old + 11 ≤ Line.ROOM }
    ensures bytes { line.new ≡ why_text why ++ line.old }
    ensures len { length line.new ≤ length line.old + 11 }
{
    match why {
        Why::Done => line.prepend(b"done"),
        Why::Waiting => line.prepend(b"waiting"),
        Why::NotWaiting => line.prepend(b"not-waiting"),
        Why::Endless => line.prepend(b"endless"),
    }
}
