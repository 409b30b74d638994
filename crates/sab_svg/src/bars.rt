//! The bars of entries: the time that their agents spent in a call or in a wait.

ghost use Rattle.std.specs.Prelude.{◌≡◌, ◌+◌, ◌≤◌, ◌++◌, length};
ghost use Rattle.sab_svg.specs.Xml.Xml.{nodes, nodes_text};
ghost use Rattle.sab_svg.specs.Moves.{call_since, wait_since, bars_of};

use crate::pieces::{RECTANGLE_LEN, push_call_bar, push_wait_bar};
use crate::shape::{Shape, row_middle, row_top};
use sab_plan::What;
use sab_report_text::text::Chunk;

/// From the upper edge of a row to the start of a call.
const BEGIN_SHIFT: u64 = 3;

/// From the upper edge of a row to the end of a call.
const RETURN_SHIFT: u64 = 17;

/// Appends the part of a call that ends with an entry in row k, of an agent that stood as it did since that one.
pub(crate) fn push_bars(
    shape: Shape,
    k: u32,
    a: u32,
    since: Option<u32>,
    what: What,
    chunk: &mut Chunk,
)
    requires { length chunk.old + RECTANGLE_LEN ≤ Chunk.ROOM }
    ensures bytes { chunk.new ≡ chunk.old ++ nodes_text (nodes (bars_of shape k a since what)) }
    ensures len { length chunk.new ≤ length chunk.old + RECTANGLE_LEN }
{
    let row = u64::from(k);
    match what {
        What::Began => {
            push_call_bar(
                shape.lane_x(a),
                row_top(row) + BEGIN_SHIFT,
                row_middle(row),
                chunk,
            );
        }
        What::Acted(_) | What::Enlisted => push_call_since(shape, a, since, row_middle(row), chunk),
        What::Left(_) => push_wait_since(shape, a, since, row_middle(row), chunk),
        What::Returned(_) => push_call_since(shape, a, since, row_top(row) + RETURN_SHIFT, chunk),
        What::Stuck(_) => {}
    }
}

/// Appends time of an agent in a call, from the row of an entry, where there is one, to a height.
fn push_call_since(shape: Shape, a: u32, since: Option<u32>, end: u64, chunk: &mut Chunk)
    requires { length chunk.old + RECTANGLE_LEN ≤ Chunk.ROOM }
    ensures bytes { chunk.new ≡ chunk.old ++ nodes_text (nodes (call_since shape a since end)) }
    ensures len { length chunk.new ≤ length chunk.old + RECTANGLE_LEN }
{
    if let Some(j) = since {
        push_call_bar(shape.lane_x(a), row_middle(u64::from(j)), end, chunk);
    }
}

/// Appends time of an agent in a wait, from the row of an entry, where there is one, to a height.
fn push_wait_since(shape: Shape, a: u32, since: Option<u32>, end: u64, chunk: &mut Chunk)
    requires { length chunk.old + RECTANGLE_LEN ≤ Chunk.ROOM }
    ensures bytes { chunk.new ≡ chunk.old ++ nodes_text (nodes (wait_since shape a since end)) }
    ensures len { length chunk.new ≤ length chunk.old + RECTANGLE_LEN }
{
    if let Some(j) = since {
        push_wait_bar(shape.lane_x(a), row_middle(u64::from(j)), end, chunk);
    }
}
