//! What entries changed, as texts behind the lanes.

ghost use Rattle.std.specs.Prelude.{◌≡◌, ◌+◌, ◌≤◌, ◌++◌, length};
ghost use Rattle.sab_svg.specs.Xml.Xml.{text_of, nodes, nodes_text};
ghost use Rattle.sab_svg.specs.Moves.{changed_text, changed, change_of};

use crate::class::Class;
use crate::pieces::{LABEL_END, LABEL_LEN, open_label};
use crate::shape::{Shape, row_text};
use crate::xml::push_escaped;
use sab_block::Operand;
use sab_plan::{Call, Found};
use sab_report_text::text::Chunk;
use sab_report_text::words::{ELEMENT_LEN, Name, is_same, push_element};

/// What stands between the element before and after: an arrow, by its reference.
const ARROW: &[u8; 9] = b" &#8594; ";

/// The most bytes of how an element changed: its name, each byte as a reference, and two operands.
const CHANGED_TEXT_LEN: usize = 8 * ELEMENT_LEN + 93;

/// The most bytes of what an entry changed.
pub(crate) const CHANGE_LEN: usize = LABEL_LEN + CHANGED_TEXT_LEN;

/// Appends what the entry in row k changed.
pub(crate) fn push_change(
    names: &[Name],
    shape: Shape,
    k: u32,
    call: Option<Call>,
    found: &Found,
    scratch: &mut Chunk,
    chunk: &mut Chunk,
)
    requires { length chunk.old + CHANGE_LEN ≤ Chunk.ROOM }
    ensures bytes { chunk.new ≡ chunk.old ++ nodes_text (nodes (change_of names.now shape k call found.now)) }
    ensures len { length chunk.new ≤ length chunk.old + CHANGE_LEN }
{
    match found {
        Found::Wrote { before, after } | Found::Compared { before, after, .. } => {
            push_changed(names, shape, k, call, *before, *after, scratch, chunk);
        }
        _ => {}
    }
}

/// Appends in row k how an element changed, where it did.
fn push_changed(
    names: &[Name],
    shape: Shape,
    k: u32,
    call: Option<Call>,
    before: Operand,
    after: Operand,
    scratch: &mut Chunk,
    chunk: &mut Chunk,
)
    requires { length chunk.old + CHANGE_LEN ≤ Chunk.ROOM }
    ensures bytes { chunk.new ≡ chunk.old ++ nodes_text (nodes (changed names.now shape k call before after)) }
    ensures len { length chunk.new ≤ length chunk.old + CHANGE_LEN }
{
    if is_same(before, after) {
        return;
    }
    open_label(Class::Ink, shape.change_x(), row_text(u64::from(k)), chunk);
    push_changed_text(names, call, before, after, scratch, chunk);
    chunk.push(LABEL_END);
}

/// Appends how an element changed.
fn push_changed_text(
    names: &[Name],
    call: Option<Call>,
    before: Operand,
    after: Operand,
    scratch: &mut Chunk,
    chunk: &mut Chunk,
)
    requires { length chunk.old + CHANGED_TEXT_LEN ≤ Chunk.ROOM }
    ensures bytes { chunk.new ≡ chunk.old ++ text_of (changed_text names.now call before after) }
    ensures len { length chunk.new ≤ length chunk.old + CHANGED_TEXT_LEN }
{
    let Some(call) = call else {
        return;
    };
    scratch.clear();
    push_element(names, call, scratch);
    push_escaped(scratch.bytes(), chunk);
    chunk.push(b": ");
    chunk.push_operand(before);
    chunk.push(ARROW);
    chunk.push_operand(after);
}
