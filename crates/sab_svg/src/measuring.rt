//! The measures of a picture, by what it has to show.

ghost use Rattle.std.specs.Prelude.{◌≡◌, ◌≤◌, length, map};
ghost use Rattle.sab_report_text.specs.Words.CallText.{call_text};
ghost use Rattle.sab_svg.specs.Shape.{greatest, longest_in, longest_name, has_big, value_chars, shape_of};

use crate::shape::Shape;
use sab_plan::{Call, Plan, Script};
use sab_report_text::text::Chunk;
use sab_report_text::words::{CALL_LEN, Name, push_call};

/// How wide a character is.
pub(crate) const CHAR_WIDTH: u32 = 8;

/// What a lane has besides its longest text: the bar, and room before the next.
const LANE_MARGIN: u32 = 40;

/// The characters of an answer besides its value.
const ANSWER_CHARS: u32 = 7;

/// The characters of a change besides a name and two values.
const CHANGE_CHARS: u32 = 14;

/// The most characters of a value of 32 bits, and of 64.
const VALUE_CHARS: u32 = 11;

const BIG_VALUE_CHARS: u32 = 21;

impl Shape {
    /// The measures of the picture of so many moves, on views of these names.
    ///
    /// Each call's text is made once, and measured.
    pub(crate) fn of(names: &[Name], plan: &Plan, rows: u32) -> Shape
        ensures { result ≡ shape_of names.now plan.now rows }
    {
        let value = value_chars(plan);
        let longest = longest_call(names, plan.scripts()).max(value + ANSWER_CHARS);
        Shape {
            lane: CHAR_WIDTH * longest + LANE_MARGIN,
            change: CHAR_WIDTH * (longest_name(names) + 2 * value + CHANGE_CHARS),
            agents: plan.scripts().len() as u32,
            blocks: plan.block_lens().len() as u32,
            rows,
        }
    }
}

/// The most characters of a value.
fn value_chars(plan: &Plan) -> u32
    ensures chars { result ≡ value_chars plan.now }
    ensures few { result ≤ BIG_VALUE_CHARS }
{
    if has_big(plan) {
        BIG_VALUE_CHARS
    } else {
        VALUE_CHARS
    }
}

/// Whether some view has elements of 64 bits.
fn has_big(plan: &Plan) -> bool
    ensures { result ≡ has_big plan.now }
{
    plan.views().iter().any(|view| view.view.kind().is_big())
}

/// How many characters the longest call has.
#[tactic(auto, using(crate::proofs::Greatest::greatest_left))]
fn longest_call(names: &[Name], scripts: &[Script]) -> u32
    ensures chars { result ≡ greatest (map (longest_in names.now) scripts.now) }
    ensures few { result ≤ CALL_LEN }
{
    let mut scratch = Chunk::new();
    let mut longest = 0;
    for script in scripts {
        longest = longest.max(longest_in(names, &script.calls, &mut scratch));
    }
    longest
}

/// How many characters the longest of these calls has; the scratch is for their texts.
#[tactic(auto, using(crate::proofs::Greatest::greatest_left))]
fn longest_in(names: &[Name], calls: &[Call], scratch: &mut Chunk) -> u32
    ensures chars { result ≡ greatest (map (λ call. length (call_text names.now call)) calls.now) }
    ensures few { result ≤ CALL_LEN }
{
    let mut longest = 0;
    for call in calls {
        scratch.clear();
        push_call(names, *call, scratch);
        longest = longest.max(scratch.bytes().len() as u32);
    }
    longest
}

/// How many characters the longest name has.
#[tactic(auto, using(crate::proofs::Greatest::greatest_left))]
fn longest_name(names: &[Name]) -> u32
    ensures chars { result ≡ longest_name names.now }
    ensures few { result ≤ Name.MAX_LEN }
{
    let mut longest = 0;
    for name in names {
        longest = longest.max(name.bytes().len() as u32);
    }
    longest
}
