//! Calls and their operands as JSON.

ghost use Rattle.std.specs.Prelude.{◌≡◌, ◌+◌, ◌*◌, ◌≤◌, ◌++◌, true, length, codes};
ghost use Rattle.serde_json.specs.Written.{compact_text, items_text};
ghost use Rattle.sab_plan.specs.Call.{function_of};
ghost use Rattle.sab_report_text.specs.JsonLines.CallData.{AreNames, operand_data, argument_data, argument_items};
ghost use Rattle.sab_report_text.specs.JsonLines.CallData.{call_data};

use crate::text::Chunk;
use crate::words::{Name, push_name};
use sab_block::Operand;
use sab_plan::{Argument, Call};

/// The most bytes of an operand: a sign, 39 digits and two quotes.
pub(crate) const OPERAND_LEN: usize = 42;

/// The most bytes of an argument behind a comma.
const ITEM_LEN: usize = 43;

/// The most bytes of a bracket and a function of `Atomics`, in quotes, and of what stands between it and the name.
const FUNCTION_LEN: usize = 20;

/// The most bytes of a call as JSON: its function, a name, an index and what else it takes.
pub const CALL_LEN: usize = 190;

/// Appends a call, as `["load","m",0]`: at most [`CALL_LEN`] bytes.
///
/// `names` has the names of the plan's views, of letters, digits and `_`. A view without one has an empty name.
pub fn push_call_data(names: &[Name], call: Call, chunk: &mut Chunk)
    requires names { AreNames names.now }
    requires room { length chunk.old + CALL_LEN ≤ Chunk.ROOM }
    ensures bytes { chunk.new ≡ chunk.old ++ compact_text (call_data names.now call) }
    ensures len { length chunk.new ≤ length chunk.old + CALL_LEN }
{
    push_function(call, chunk);
    push_name(names, call.view(), chunk);
    chunk.push(b"\",");
    chunk.push_whole(i128::from(call.index()));
    push_more(call.arguments().as_slice(), chunk);
}

/// Appends an operand: a Number as a number, a BigInt as a string.
#[tactic(auto, using(crate::proofs::OfJsonLines::Texts::number_operand))]
pub(crate) fn push_operand(operand: Operand, chunk: &mut Chunk)
    requires { length chunk.old + OPERAND_LEN ≤ Chunk.ROOM }
    ensures bytes { chunk.new ≡ chunk.old ++ compact_text (operand_data operand) }
    ensures len { length chunk.new ≤ length chunk.old + OPERAND_LEN }
{
    if operand.is_big() {
        chunk.push(b"\"");
        chunk.push_whole(operand.whole());
        chunk.push(b"\"");
    } else {
        chunk.push_whole(operand.whole());
    }
}

/// Appends what stands before the name of a call's view.
fn push_function(call: Call, chunk: &mut Chunk)
    requires { length chunk.old + FUNCTION_LEN ≤ Chunk.ROOM }
    ensures bytes { chunk.new ≡ chunk.old ++ (codes "[\"" ++ (function_of call ++ codes "\",\"")) }
    ensures len { length chunk.new ≤ length chunk.old + FUNCTION_LEN }
{
    chunk.push(b"[\"");
    chunk.push(call.function().as_bytes());
    chunk.push(b"\",\"");
}

/// Appends arguments, each behind a comma, and closes the array of their call.
fn push_more(arguments: &[Argument], chunk: &mut Chunk)
    requires { length chunk.old + ITEM_LEN * length arguments.now + 1 ≤ Chunk.ROOM }
    ensures bytes { chunk.new ≡ chunk.old ++ items_text true (argument_items arguments.now) }
    ensures len { length chunk.new ≤ length chunk.old + ITEM_LEN * length arguments.now + 1 }
{
    for argument in arguments {
        chunk.push(b",");
        push_argument(*argument, chunk);
    }
    chunk.push(b"]");
}

/// Appends an argument.
#[tactic(auto, using(crate::proofs::OfJsonLines::Texts::whole_text))]
fn push_argument(argument: Argument, chunk: &mut Chunk)
    requires { length chunk.old + OPERAND_LEN ≤ Chunk.ROOM }
    ensures bytes { chunk.new ≡ chunk.old ++ compact_text (argument_data argument) }
    ensures len { length chunk.new ≤ length chunk.old + OPERAND_LEN }
{
    match argument {
        Argument::Value(operand) => push_operand(operand, chunk),
        Argument::Limit(limit) => chunk.push_whole(i128::from(limit)),
    }
}
