//! The simulator for a host that gives and takes bytes, as JavaScript does with a module of WebAssembly: what the
//! program `sabsim` does, except races.
#![tactic(auto)]

ghost use Rattle.sabsim_wasm.specs.Exports.{RepliesToNumbers, RepliesToSearch, RepliesToWords};
ghost use Rattle.sabsim_wasm.specs.Asked.{search_at};

mod asked;
mod command;
mod reply;
mod written;

use crate::asked::{search_of, task_of};
use crate::command::obey;
use crate::written::{reply_to_search, reply_to_task};
pub use reply::Reply;
use std::alloc::Global;

/// Does with the input's bytes what these numbers ask for, and puts what the program writes then into the host's room.
///
/// `job` is 0 to replay a script, 1 to check it, 2 to judge its run, and 3 to judge a trace. `format` is that of the
/// report: 0 for plain, 1 for explained, 2 for json, 3 for svg, 4 for script; of a verdict it is 0 for plain or 2 for
/// json. A job ignores what it has no use for. For any other number the status is 2, and nothing is written.
///
/// The room has what the program writes to standard output, and right after it what it writes to standard error. The
/// reply has the exit status and both lengths. A room that is too small for both stays as it was, and the host calls
/// again with a larger one. If there is no memory, the program ends with 5 OutOfMemory.
#[unsafe(no_mangle)]
#[tactic(auto, using(crate::proofs::Replies::numbers))]
pub extern "C" fn sabsim_run(
    alloc: Global,
    job: u32,
    format: u32,
    acts: bool,
    finish: bool,
    explain: bool,
    input: &[u8],
    room: &mut [u8],
    reply: &mut Reply,
)
    ensures { RepliesToNumbers job format acts finish explain input.now room.old room.new reply.new }
{
    let task = task_of(job, format, acts, finish);
    *reply = reply_to_task(alloc, task, explain, input, room);
}

/// Searches all schedules of the input's bytes, a file of automata, and puts what the program writes then into the
/// host's room.
///
/// `timeouts` says when a wait may time out: 0 for early, 1 for last, 2 for never. `limit` is the greatest number of
/// states, `format` 0 for plain or 2 for json, and `states` says whether each state is written. If a number has no
/// meaning, or the limit is 0, the status is 2, and nothing is written.
///
/// It searches once, whatever the room is: the room has the first lines of standard output, as many as fit, and the
/// reply says how many bytes are left out. If the file is refused or there is no memory, the room is as after
/// [`sabsim_run`].
#[unsafe(no_mangle)]
#[tactic(auto, using(crate::proofs::Replies::searched))]
pub extern "C" fn sabsim_search(
    alloc: Global,
    timeouts: u32,
    limit: u32,
    format: u32,
    states: bool,
    explain: bool,
    input: &[u8],
    room: &mut [u8],
    reply: &mut Reply,
)
    ensures { RepliesToSearch (search_at timeouts limit format states) explain input.now room.old room.new reply.new }
{
    let job = search_of(timeouts, limit, format, states);
    *reply = reply_to_search(alloc, job, explain, input, room);
}

/// Does what the words of a command line ask for, and puts what the program writes then into the host's room, as
/// [`sabsim_run`] does.
///
/// Each word has a byte 0 after it, and the first is the program's name. `given` says what the host has read of the
/// input that the words name: 0 for nothing yet, 1 for the bytes in `input`, and any other number if it can't be read.
/// At 0 the reply says what the host has to read, if anything: `wants` is 1 for standard input, and 2 for the file
/// whose name is in the room; `status` says what that is ([`Reply`]). `is_terminal`: whether standard error is a
/// terminal, on which each refusal is explained.
///
/// A race ends with 9 NoThread once its script is read: it needs threads, which only the native program has. Of a
/// search the room has the lines that fit, as after [`sabsim_search`].
#[unsafe(no_mangle)]
pub extern "C" fn sabsim_command(
    alloc: Global,
    words: &[u8],
    given: u32,
    is_terminal: bool,
    input: &[u8],
    room: &mut [u8],
    reply: &mut Reply,
)
    ensures { RepliesToWords words.now given is_terminal input.now room.old room.new reply.new }
{
    *reply = obey(alloc, words, given, is_terminal, input, room);
}
