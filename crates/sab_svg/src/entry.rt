//! Entries in a picture.

ghost use Rattle.std.specs.Prelude.{◌≡◌, ◌+◌, ◌≤◌, ◌++◌, [], ◌∷◌, length, codes, decimal};
ghost use Rattle.sab_svg.specs.Xml.Xml.{node_text, nodes, nodes_text};
ghost use Rattle.sab_svg.specs.Pieces.{label, newline};
ghost use Rattle.sab_svg.specs.Moves.{pieces_of, drawn_entry};
ghost use Rattle.sab_svg.specs.Shape as shapes;

use crate::arrows::{ARROWS_LEN, push_arrows};
use crate::bars::push_bars;
use crate::change::{CHANGE_LEN, push_change};
use crate::class::Class;
use crate::done::{DONE_LEN, push_done};
use crate::pieces::{
    AGENT_LEN, GROUP_LEN, LABEL_END, LABEL_LEN, RECTANGLE_LEN, open_group, open_label, push_agent,
};
use crate::shape::{Shape, row_text};
use sab_plan::{Entry, Explained, Fact, Plan};
use sab_report_text::text::Chunk;
use sab_report_text::words::{Name, WORDS_LEN, push_words};

/// Where the numbers of rows end: one of 7 digits has room.
const NUMBERS_END: u64 = 48;

/// The most bytes of the number of a row.
const NUMBER_LEN: usize = LABEL_LEN + 20;

/// The most bytes of what is drawn of an entry besides its words: the number of a row, a bar, what it did and changed,
/// and 16 arrows.
const PIECES_LEN: usize = NUMBER_LEN + RECTANGLE_LEN + DONE_LEN + CHANGE_LEN + ARROWS_LEN;

/// The most bytes of an entry: its words, each byte as a reference, and what is drawn of it.
pub(crate) const ENTRY_ROOM: usize = GROUP_LEN + 8 * (AGENT_LEN + WORDS_LEN) + PIECES_LEN + 5;

/// Appends an entry, which is entry `k` of its journal, with its fact in words for a pointer, and a line feed.
///
/// `sinces` has for each agent the position of its last entry before this one that had an effect. What the scratch held
/// is lost.
pub(crate) fn push_entry(
    names: &[Name],
    plan: &Plan,
    shape: Shape,
    sinces: &[Option<u32>],
    k: u32,
    explained: &Explained,
    scratch: &mut Chunk,
    chunk: &mut Chunk,
)
    requires { length chunk.old + ENTRY_ROOM ≤ Chunk.ROOM }
    ensures { chunk.new ≡ chunk.old ++ nodes_text (nodes
        (drawn_entry names.now plan.now shape sinces.now k explained.now.entry explained.now.fact ∷ newline ∷ [])) }
{
    scratch.clear();
    push_agent(explained.entry.agent, scratch);
    push_words(
        names,
        plan,
        sinces,
        &explained.entry,
        &explained.fact,
        scratch,
    );
    open_group(scratch.bytes(), chunk);
    push_pieces(
        names,
        shape,
        k,
        &explained.entry,
        &explained.fact,
        scratch,
        chunk,
    );
    chunk.push(b"</g>\n");
}

/// Appends what is drawn of an entry in row k: its number, what it did there, what it changed, and whom it woke.
fn push_pieces(
    names: &[Name],
    shape: Shape,
    k: u32,
    entry: &Entry,
    fact: &Fact,
    scratch: &mut Chunk,
    chunk: &mut Chunk,
)
    requires { length chunk.old + PIECES_LEN ≤ Chunk.ROOM }
    ensures bytes { chunk.new ≡ chunk.old ++ nodes_text (nodes (pieces_of names.now shape k entry.now fact.now)) }
    ensures len { length chunk.new ≤ length chunk.old + PIECES_LEN }
{
    push_number(k, chunk);
    push_bars(shape, k, entry.agent, fact.since, entry.what, chunk);
    let x = shape.label_x(entry.agent);
    let y = row_text(u64::from(k));
    push_done(names, x, y, fact.call, entry.what, scratch, chunk);
    push_change(names, shape, k, fact.call, &fact.found, scratch, chunk);
    push_arrows(shape, k, entry, &fact.found, chunk);
}

/// Appends the number of row k.
fn push_number(k: u32, chunk: &mut Chunk)
    requires { length chunk.old + NUMBER_LEN ≤ Chunk.ROOM }
    ensures bytes { chunk.new ≡ chunk.old ++ node_text (label (codes "row") 48 (shapes.row_text k) (decimal k)) }
    ensures len { length chunk.new ≤ length chunk.old + NUMBER_LEN }
{
    let k = u64::from(k);
    open_label(Class::Row, NUMBERS_END, row_text(k), chunk);
    chunk.push_number(k);
    chunk.push(LABEL_END);
}
