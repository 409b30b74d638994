//! Calls as JavaScript writes them, and elements.

ghost use Rattle.std.specs.Prelude.{◌≡◌, ◌+◌, ◌*◌, ◌≤◌, ◌++◌, length, flat_map};
ghost use Rattle.sab_report_text.specs.Words.CallText.{name_of, argument_text, call_text, element_text};
ghost use Rattle.sab_report_text.specs.Words.FactText.{stand_text};

use crate::text::Chunk;
use crate::words::counts::push_since;
use crate::words::name::Name;
use sab_plan::{Argument, Call};

/// The most bytes of an argument: a comma, a space and an operand.
const ARGUMENT_LEN: usize = 43;

/// The most bytes of a call: its function, a name, an index and two arguments more.
pub const CALL_LEN: usize = 180;

/// The most bytes of an element: a name and an index.
pub const ELEMENT_LEN: usize = 74;

/// The most bytes of where an agent stands in line, and since when.
pub(crate) const STAND_LEN: usize = 105;

/// Appends a call, as `load(m, 0)`.
#[tactic(auto, unfolding(crate::specs::Words::CallText::call_text))]
pub fn push_call(names: &[Name], call: Call, chunk: &mut Chunk)
    requires { length chunk.old + CALL_LEN ≤ Chunk.ROOM }
    ensures bytes { chunk.new ≡ chunk.old ++ call_text names.now call }
    ensures len { length chunk.new ≤ length chunk.old + CALL_LEN }
{
    chunk.push(call.function().as_bytes());
    chunk.push(b"(");
    push_name(names, call.view(), chunk);
    chunk.push(b", ");
    chunk.push_whole(i128::from(call.index()));
    push_more_arguments(call.arguments().as_slice(), chunk);
    chunk.push(b")");
}

/// Appends the element that a call names, as `m[0]`.
#[tactic(auto, unfolding(crate::specs::Words::CallText::element_text))]
pub fn push_element(names: &[Name], call: Call, chunk: &mut Chunk)
    requires { length chunk.old + ELEMENT_LEN ≤ Chunk.ROOM }
    ensures bytes { chunk.new ≡ chunk.old ++ element_text names.now call }
    ensures len { length chunk.new ≤ length chunk.old + ELEMENT_LEN }
{
    push_name(names, call.view(), chunk);
    chunk.push(b"[");
    chunk.push_whole(i128::from(call.index()));
    chunk.push(b"]");
}

/// Appends at which element an agent stands in line, and since when.
#[tactic(auto, unfolding(crate::specs::Words::FactText::stand_text))]
pub(crate) fn push_stand(names: &[Name], call: Call, since: Option<u32>, chunk: &mut Chunk)
    requires { length chunk.old + STAND_LEN ≤ Chunk.ROOM }
    ensures bytes { chunk.new ≡ chunk.old ++ stand_text (element_text names.now call) since }
    ensures len { length chunk.new ≤ length chunk.old + STAND_LEN }
{
    chunk.push(b" at ");
    push_element(names, call, chunk);
    push_since(since, chunk);
}

/// Appends the name of a view, and nothing where it has none.
pub fn push_name(names: &[Name], view: u32, chunk: &mut Chunk)
    requires { length chunk.old + Name.MAX_LEN ≤ Chunk.ROOM }
    ensures bytes { chunk.new ≡ chunk.old ++ name_of names.now view }
    ensures len { length chunk.new ≤ length chunk.old + Name.MAX_LEN }
{
    if let Some(name) = names.get(view as usize) {
        chunk.push(name.bytes());
    }
}

/// Appends arguments, each behind a comma.
fn push_more_arguments(arguments: &[Argument], chunk: &mut Chunk)
    requires { length chunk.old + ARGUMENT_LEN * length arguments.now ≤ Chunk.ROOM }
    ensures bytes { chunk.new ≡ chunk.old ++ flat_map argument_text arguments.now }
    ensures len { length chunk.new ≤ length chunk.old + ARGUMENT_LEN * length arguments.now }
{
    for argument in arguments {
        push_argument(*argument, chunk);
    }
}

/// Appends an argument, behind a comma.
fn push_argument(argument: Argument, chunk: &mut Chunk)
    requires { length chunk.old + ARGUMENT_LEN ≤ Chunk.ROOM }
    ensures bytes { chunk.new ≡ chunk.old ++ argument_text argument }
    ensures len { length chunk.new ≤ length chunk.old + ARGUMENT_LEN }
{
    chunk.push(b", ");
    match argument {
        Argument::Value(operand) => chunk.push_operand(operand),
        Argument::Limit(limit) => chunk.push_whole(i128::from(limit)),
    }
}
