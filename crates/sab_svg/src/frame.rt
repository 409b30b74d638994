//! What stands behind and around the moves of a picture.

ghost use Rattle.std.specs.Prelude.{◌≡◌, ◌+◌, ◌*◌, ◌<◌, ◌≤◌, ◌^◌, ◌++◌, length, codes};
ghost use Rattle.sab_svg.specs.Xml.Xml.{node_text, nodes_text, nodes};
ghost use Rattle.sab_svg.specs.Pieces.{rectangle};
ghost use Rattle.sab_svg.specs.Shape as shapes;
ghost use Rattle.sab_svg.specs.Frame.{style, drawn_defs, lane, legend, legend_row, background, root_start};

use crate::class::Class;
use crate::pieces::{
    LABEL_LEN, LINE_LEN, RECTANGLE_LEN, TITLE_LEN, push_across, push_down, push_label,
    push_rectangle, push_title,
};
use crate::shape::{ROW_HEIGHT, ROWS_TOP, Shape, row_middle, row_text, row_top};
use crate::xml::push_escaped;
use sab_report_text::text::Chunk;

/// What a pointer shows over the whole picture.
const TITLE: &[u8; 47] = b"The calls of agents, from top to bottom in time";

/// The colours, on a light and on a dark background: all eyes distinguish orange, sky blue and bluish green.
///
/// No colour is a variable, since few programs but browsers know variables. Those for a dark background stand last, and
/// a program that doesn't know how to ask for one leaves them out.
const STYLE: &[u8; 752] = b"\
text{font-family:ui-monospace,Menlo,Consolas,DejaVu Sans Mono,monospace;font-size:13px;fill:#1f2328}
.head{font-weight:bold}.row{font-size:11px;text-anchor:end}.row,.dim{fill:#656d76}
.answer{fill:#0b5cad}.error{fill:#b3400b}.paper{fill:#fff}.rows{fill:url(#rows)}
.band{fill:#d0d7de;fill-opacity:.25}.lane{stroke:#d0d7de}.call{fill:#56b4e9}.wait{fill:#e69f00}
.open{fill-opacity:.4;stroke-dasharray:4 3}.call.open{stroke:#56b4e9}.wait.open{stroke:#e69f00}
.wake{stroke:#00775a;stroke-width:2;marker-end:url(#tip)}.tip{fill:#00775a}
@media (prefers-color-scheme:dark){text{fill:#e6edf3}.row,.dim{fill:#8b949e}.answer{fill:#79c0ff}.error{fill:#ff9e64}
.paper{fill:#0d1117}.band{fill:#3d444d}.lane{stroke:#3d444d}.wake{stroke:#3fd0a5}.tip{fill:#3fd0a5}}
";

/// The tip of an arrow, and the start of the background of rows.
const DEFS: &[u8; 204] = b"<defs>\
<marker id=\"tip\" viewBox=\"0 0 8 8\" refX=\"7\" refY=\"4\" markerWidth=\"5\" markerHeight=\"5\" orient=\"auto\">\
<path class=\"tip\" d=\"M0,0L8,4L0,8z\"/></marker>\
<pattern id=\"rows\" patternUnits=\"userSpaceOnUse\" y=\"";

/// The most bytes of the style.
const STYLE_LEN: usize = 8 * STYLE.len() + 15;

/// The most bytes of the tag that begins a picture.
pub(crate) const ROOT_LEN: usize = 200;

/// The most bytes of what is defined for a picture.
const DEFS_LEN: usize = DEFS.len() + RECTANGLE_LEN + 100;

/// The most bytes of what stands behind everything.
pub(crate) const BACKGROUND_LEN: usize = TITLE_LEN
    + 8 * TITLE.len()
    + STYLE_LEN
    + DEFS_LEN
    + 2 * RECTANGLE_LEN
    + LABEL_LEN
    + 62;

/// The most bytes of a lane.
pub(crate) const LANE_LEN: usize = LINE_LEN + LABEL_LEN + 8 * 26 + 2;

/// The most bytes of what the colours mean.
pub(crate) const LEGEND_LEN: usize = 2 * RECTANGLE_LEN + LINE_LEN + 3 * LABEL_LEN + 158;

/// The line that the heads of lanes stand on.
const HEAD_Y: u64 = 34;

/// Where lanes begin.
const LANE_TOP: u64 = 44;

/// How far the head of a lane goes to the left of it.
const HEAD_SHIFT: u64 = 8;

/// Appends the tag that begins a picture.
pub(crate) fn push_root(shape: Shape, chunk: &mut Chunk)
    requires { length chunk.old + ROOT_LEN ≤ Chunk.ROOM }
    ensures bytes { chunk.new ≡ chunk.old ++ root_start shape }
    ensures len { length chunk.new ≤ length chunk.old + ROOT_LEN }
{
    chunk.push(b"<svg xmlns=\"http://www.w3.org/2000/svg\" width=\"");
    chunk.push_number(shape.width());
    chunk.push(b"\" height=\"");
    chunk.push_number(shape.height());
    chunk.push(b"\" viewBox=\"0 0 ");
    chunk.push_number(shape.width());
    chunk.push(b" ");
    chunk.push_number(shape.height());
    chunk.push(b"\">");
}

/// Appends the colours.
fn push_style(chunk: &mut Chunk)
    requires { length chunk.old + STYLE_LEN ≤ Chunk.ROOM }
    ensures bytes { chunk.new ≡ chunk.old ++ node_text style }
    ensures len { length chunk.new ≤ length chunk.old + STYLE_LEN }
{
    chunk.push(b"<style>");
    push_escaped(STYLE, chunk);
    chunk.push(b"</style>");
}

/// Appends the tip of an arrow, and the background of every second row.
fn push_defs(shape: Shape, chunk: &mut Chunk)
    requires { length chunk.old + DEFS_LEN ≤ Chunk.ROOM }
    ensures bytes { chunk.new ≡ chunk.old ++ node_text (drawn_defs shape) }
    ensures len { length chunk.new ≤ length chunk.old + DEFS_LEN }
{
    chunk.push(DEFS);
    chunk.push_number(ROWS_TOP);
    chunk.push(b"\" width=\"");
    chunk.push_number(shape.width());
    chunk.push(b"\" height=\"");
    chunk.push_number(2 * ROW_HEIGHT);
    chunk.push(b"\">");
    push_rectangle(Class::Band, 0, 0, shape.width(), ROW_HEIGHT, chunk);
    chunk.push(b"</pattern></defs>");
}

/// Appends what stands behind everything.
pub(crate) fn push_background(shape: Shape, chunk: &mut Chunk)
    requires { length chunk.old + BACKGROUND_LEN ≤ Chunk.ROOM }
    ensures bytes { chunk.new ≡ chunk.old ++ nodes_text (nodes (background shape)) }
    ensures len { length chunk.new ≤ length chunk.old + BACKGROUND_LEN }
{
    push_title(TITLE, chunk);
    chunk.push(b"\n");
    push_style(chunk);
    chunk.push(b"\n");
    push_defs(shape, chunk);
    chunk.push(b"\n");
    push_rectangle(Class::Paper, 0, 0, shape.width(), shape.height(), chunk);
    chunk.push(b"\n");
    push_rows(shape, chunk);
    chunk.push(b"\n");
    push_label(Class::Head, shape.change_x(), HEAD_Y, b"changes", chunk);
    chunk.push(b"\n");
}

/// Appends the background of all rows.
fn push_rows(shape: Shape, chunk: &mut Chunk)
    requires { length chunk.old + RECTANGLE_LEN ≤ Chunk.ROOM }
    ensures bytes { chunk.new
        ≡ chunk.old ++ node_text (rectangle (codes "rows") 0 56 (shapes.width shape) (20 * shape.rows)) }
    ensures len { length chunk.new ≤ length chunk.old + RECTANGLE_LEN }
{
    let height = ROW_HEIGHT * u64::from(shape.rows);
    push_rectangle(Class::Rows, 0, ROWS_TOP, shape.width(), height, chunk);
}

/// Appends the lane of an agent.
pub(crate) fn push_lane(shape: Shape, a: u32, scratch: &mut Chunk, chunk: &mut Chunk)
    requires { length chunk.old + LANE_LEN ≤ Chunk.ROOM }
    ensures bytes { chunk.new ≡ chunk.old ++ nodes_text (nodes (lane shape a)) }
    ensures len { length chunk.new ≤ length chunk.old + LANE_LEN }
{
    let x = shape.lane_x(a);
    push_down(Class::Lane, x, LANE_TOP, shape.rows_end(), chunk);
    chunk.push(b"\n");
    scratch.clear();
    scratch.push(b"agent ");
    scratch.push_number(u64::from(a));
    push_label(Class::Head, x - HEAD_SHIFT, HEAD_Y, scratch.bytes(), chunk);
    chunk.push(b"\n");
}

/// Appends what the colours mean.
pub(crate) fn push_legend(shape: Shape, chunk: &mut Chunk)
    requires { length chunk.old + LEGEND_LEN ≤ Chunk.ROOM }
    ensures bytes { chunk.new ≡ chunk.old ++ nodes_text (nodes (legend shape)) }
    ensures len { length chunk.new ≤ length chunk.old + LEGEND_LEN }
{
    let row = legend_row(shape);
    let y = row_text(row);
    push_rectangle(Class::Call, 48, row_top(row) + 4, 12, 12, chunk);
    chunk.push(b"\n");
    push_label(Class::Dim, 68, y, b"in a call", chunk);
    chunk.push(b"\n");
    push_rectangle(Class::Wait, 168, row_top(row) + 4, 16, 12, chunk);
    chunk.push(b"\n");
    push_label(Class::Dim, 192, y, b"waits", chunk);
    chunk.push(b"\n");
    push_across(Class::Wake, 256, row_middle(row), 290, chunk);
    chunk.push(b"\n");
    push_label(Class::Dim, 300, y, b"wakes", chunk);
    chunk.push(b"\n");
}

/// The row of what the colours mean.
fn legend_row(shape: Shape) -> u64
    ensures row { result ≡ legend_row shape }
    ensures small { result < 2 ^ 59 }
{
    u64::from(shape.rows) + u64::from(shape.blocks) + 3
}
