//! What a picture is made of: texts, bars, lines, and groups of them.

ghost use Rattle.std.specs.Prelude.{◌≡◌, ◌+◌, ◌*◌, ◌-◌, ◌≤◌, ◌<◌, ◌^◌, ◌++◌, [], length};
ghost use Rattle.sab_svg.specs.Xml.Xml.{node_text};
ghost use Rattle.sab_svg.specs.Pieces.{class_text, label, label_start, rectangle, call_bar, wait_bar, open_call_bar};
ghost use Rattle.sab_svg.specs.Pieces.{open_wait_bar, across, down, line_start, title, agent_words, group_start};

use crate::class::Class;
use crate::xml::push_escaped;
use sab_report_text::text::Chunk;

/// The most bytes of a label before what it says: a class and two numbers.
const LABEL_START_LEN: usize = 74;

/// What ends a label.
pub(crate) const LABEL_END: &[u8; 7] = b"</text>";

/// The most bytes of a label besides what it says.
pub(crate) const LABEL_LEN: usize = LABEL_START_LEN + LABEL_END.len();

/// The most bytes of a rectangle: a class and four numbers.
pub(crate) const RECTANGLE_LEN: usize = 134;

/// The most bytes of a line before its direction: a class and two numbers.
const LINE_START_LEN: usize = 69;

/// The most bytes of a line: a class and three numbers.
pub(crate) const LINE_LEN: usize = LINE_START_LEN + 24;

/// The bytes of a title besides what it says.
pub(crate) const TITLE_LEN: usize = 15;

/// The most bytes of an agent before its words.
pub(crate) const AGENT_LEN: usize = 28;

/// The bytes of the start of a group besides what its title says.
pub(crate) const GROUP_LEN: usize = TITLE_LEN + 3;

/// How far the bar of a call goes to each side from the middle of its lane.
const CALL_HALF: u64 = 6;

/// How far the bar of a wait goes to each side from the middle of its lane.
const WAIT_HALF: u64 = 8;

/// Appends a text of a class, from x on: 8 bytes at most for each of its own.
pub(crate) fn push_label(class: Class, x: u64, y: u64, text: &[u8], chunk: &mut Chunk)
    requires { length chunk.old + LABEL_LEN + 8 * length text.now ≤ Chunk.ROOM }
    ensures bytes { chunk.new ≡ chunk.old ++ node_text (label (class_text class) x y text.now) }
    ensures len { length chunk.new ≤ length chunk.old + LABEL_LEN + 8 * length text.now }
{
    open_label(class, x, y, chunk);
    push_escaped(text, chunk);
    chunk.push(LABEL_END);
}

/// Appends the start of a text of a class, up to what it says.
pub(crate) fn open_label(class: Class, x: u64, y: u64, chunk: &mut Chunk)
    requires { length chunk.old + LABEL_START_LEN ≤ Chunk.ROOM }
    ensures bytes { chunk.new ≡ chunk.old ++ label_start (class_text class) x y }
    ensures len { length chunk.new ≤ length chunk.old + LABEL_START_LEN }
{
    chunk.push(b"<text class=\"");
    chunk.push(class.name());
    chunk.push(b"\" x=\"");
    chunk.push_number(x);
    chunk.push(b"\" y=\"");
    chunk.push_number(y);
    chunk.push(b"\">");
}

/// Appends a rectangle of a class.
pub(crate) fn push_rectangle(
    class: Class,
    x: u64,
    y: u64,
    width: u64,
    height: u64,
    chunk: &mut Chunk,
)
    requires { length chunk.old + RECTANGLE_LEN ≤ Chunk.ROOM }
    ensures bytes { chunk.new ≡ chunk.old ++ node_text (rectangle (class_text class) x y width height) }
    ensures len { length chunk.new ≤ length chunk.old + RECTANGLE_LEN }
{
    chunk.push(b"<rect class=\"");
    chunk.push(class.name());
    chunk.push(b"\" x=\"");
    chunk.push_number(x);
    chunk.push(b"\" y=\"");
    chunk.push_number(y);
    chunk.push(b"\" width=\"");
    chunk.push_number(width);
    chunk.push(b"\" height=\"");
    chunk.push_number(height);
    chunk.push(b"\"/>");
}

/// Appends a bar in the lane whose middle is x, so wide to each side.
fn push_bar(class: Class, half: u64, x: u64, top: u64, end: u64, chunk: &mut Chunk)
    requires narrow { half < 2 ^ 32 }
    requires room { length chunk.old + RECTANGLE_LEN ≤ Chunk.ROOM }
    ensures bytes { chunk.new
        ≡ chunk.old ++ node_text (rectangle (class_text class) (x - half) top (2 * half) (end - top)) }
    ensures len { length chunk.new ≤ length chunk.old + RECTANGLE_LEN }
{
    push_rectangle(
        class,
        x.saturating_sub(half),
        top,
        2 * half,
        end.saturating_sub(top),
        chunk,
    );
}

/// Appends time in a call, in the lane whose middle is x.
pub(crate) fn push_call_bar(x: u64, top: u64, end: u64, chunk: &mut Chunk)
    requires { length chunk.old + RECTANGLE_LEN ≤ Chunk.ROOM }
    ensures bytes { chunk.new ≡ chunk.old ++ node_text (call_bar x top end) }
    ensures len { length chunk.new ≤ length chunk.old + RECTANGLE_LEN }
{
    push_bar(Class::Call, CALL_HALF, x, top, end, chunk);
}

/// Appends time in a wait, in the lane whose middle is x.
pub(crate) fn push_wait_bar(x: u64, top: u64, end: u64, chunk: &mut Chunk)
    requires { length chunk.old + RECTANGLE_LEN ≤ Chunk.ROOM }
    ensures bytes { chunk.new ≡ chunk.old ++ node_text (wait_bar x top end) }
    ensures len { length chunk.new ≤ length chunk.old + RECTANGLE_LEN }
{
    push_bar(Class::Wait, WAIT_HALF, x, top, end, chunk);
}

/// Appends time in a call that hasn't returned when the run ends, in the lane whose middle is x.
pub(crate) fn push_open_call_bar(x: u64, top: u64, end: u64, chunk: &mut Chunk)
    requires { length chunk.old + RECTANGLE_LEN ≤ Chunk.ROOM }
    ensures bytes { chunk.new ≡ chunk.old ++ node_text (open_call_bar x top end) }
    ensures len { length chunk.new ≤ length chunk.old + RECTANGLE_LEN }
{
    push_bar(Class::OpenCall, CALL_HALF, x, top, end, chunk);
}

/// Appends time in a wait that its agent hasn't left when the run ends, in the lane whose middle is x.
pub(crate) fn push_open_wait_bar(x: u64, top: u64, end: u64, chunk: &mut Chunk)
    requires { length chunk.old + RECTANGLE_LEN ≤ Chunk.ROOM }
    ensures bytes { chunk.new ≡ chunk.old ++ node_text (open_wait_bar x top end) }
    ensures len { length chunk.new ≤ length chunk.old + RECTANGLE_LEN }
{
    push_bar(Class::OpenWait, WAIT_HALF, x, top, end, chunk);
}

/// Appends a line across, from a point to this x.
pub(crate) fn push_across(class: Class, x: u64, y: u64, end: u64, chunk: &mut Chunk)
    requires { length chunk.old + LINE_LEN ≤ Chunk.ROOM }
    ensures bytes { chunk.new ≡ chunk.old ++ node_text (across (class_text class) x y end) }
    ensures len { length chunk.new ≤ length chunk.old + LINE_LEN }
{
    push_start(class, x, y, chunk);
    chunk.push(b"H");
    chunk.push_number(end);
    chunk.push(b"\"/>");
}

/// Appends a line down, from a point to this y.
pub(crate) fn push_down(class: Class, x: u64, y: u64, end: u64, chunk: &mut Chunk)
    requires { length chunk.old + LINE_LEN ≤ Chunk.ROOM }
    ensures bytes { chunk.new ≡ chunk.old ++ node_text (down (class_text class) x y end) }
    ensures len { length chunk.new ≤ length chunk.old + LINE_LEN }
{
    push_start(class, x, y, chunk);
    chunk.push(b"V");
    chunk.push_number(end);
    chunk.push(b"\"/>");
}

/// Appends how a line begins: its class, and the point that it goes from.
fn push_start(class: Class, x: u64, y: u64, chunk: &mut Chunk)
    requires { length chunk.old + LINE_START_LEN ≤ Chunk.ROOM }
    ensures bytes { chunk.new ≡ chunk.old ++ line_start (class_text class) x y }
    ensures len { length chunk.new ≤ length chunk.old + LINE_START_LEN }
{
    chunk.push(b"<path class=\"");
    chunk.push(class.name());
    chunk.push(b"\" d=\"M");
    chunk.push_number(x);
    chunk.push(b",");
    chunk.push_number(y);
}

/// Appends what a pointer shows: 8 bytes at most for each of its own.
#[tactic(auto, using(crate::proofs::Texts::title_text))]
pub(crate) fn push_title(text: &[u8], chunk: &mut Chunk)
    requires { length chunk.old + TITLE_LEN + 8 * length text.now ≤ Chunk.ROOM }
    ensures bytes { chunk.new ≡ chunk.old ++ node_text (title text.now) }
    ensures len { length chunk.new ≤ length chunk.old + TITLE_LEN + 8 * length text.now }
{
    chunk.push(b"<title>");
    push_escaped(text, chunk);
    chunk.push(b"</title>");
}

/// Appends an agent, before its words.
pub(crate) fn push_agent(a: u32, chunk: &mut Chunk)
    requires { length chunk.old + AGENT_LEN ≤ Chunk.ROOM }
    ensures bytes { chunk.new ≡ chunk.old ++ agent_words a [] }
    ensures len { length chunk.new ≤ length chunk.old + AGENT_LEN }
{
    chunk.push(b"agent ");
    chunk.push_number(u64::from(a));
    chunk.push(b": ");
}

/// Appends the start of a group, up to its first piece: 8 bytes at most for each of its title.
///
/// Its pieces come behind it, and then `</g>`.
#[tactic(auto, unfolding(crate::specs::Pieces::group_start))]
pub(crate) fn open_group(text: &[u8], chunk: &mut Chunk)
    requires { length chunk.old + GROUP_LEN + 8 * length text.now ≤ Chunk.ROOM }
    ensures bytes { chunk.new ≡ chunk.old ++ group_start text.now }
    ensures len { length chunk.new ≤ length chunk.old + GROUP_LEN + 8 * length text.now }
{
    chunk.push(b"<g>");
    push_title(text, chunk);
}
