//! What a host asks for by the words of a command line.

ghost use Rattle.std.specs.Prelude.{◌≡◌, ◌||◌, IfOk, map};
ghost use Rattle.clap.specs.Words.{kind_of};
ghost use Rattle.sab_cli.specs.Command.Job.{IsTaskWithinLimits};
ghost use Rattle.sabsim_wasm.specs.Exports.{RepliesToInput, RepliesToRefusal, RepliesToWords};
ghost use Rattle.sabsim_wasm.specs.Words.{words_of};

use crate::reply::{Reply, ask_for, put, put_no_memory};
use crate::written::{put_task, put_unreadable};
use clap::Error;
use clap::error::ErrorKind;
use sab_cli::command::{Request, request_of};
use sab_cli::exit::Ending;
use std::alloc::{AllocError, Global};

/// What the program prints about words that are no text.
static NO_TEXT: &str = "sabsim: the command line is no text\n";

/// Does what the words ask for, with what the host has read of the input.
#[tactic(auto, using(crate::proofs::Replies::requested, crate::proofs::Replies::refused_bytes))]
pub(crate) fn obey(
    alloc: Global,
    words: &[u8],
    given: u32,
    is_terminal: bool,
    input: &[u8],
    room: &mut [u8],
) -> Reply
    ensures { RepliesToWords words.now given is_terminal input.now room.old room.new result }
{
    let Ok(text) = std::str::from_utf8(words) else {
        return put(Ending::Refused.status(), &[], NO_TEXT, room);
    };
    let Ok(list) = words_of(alloc, text) else {
        return put_no_memory(room);
    };
    match request_of(alloc, list.as_slice()) {
        Ok(request) => reply_to(alloc, request, given, is_terminal, input, room),
        Err(error) => refuse(alloc, &error, room),
    }
}

/// The words of a text in which each has a byte 0 after it.
fn words_of<'a>(alloc: Global, text: &'a str) -> Result<Vec<&'a str>, AllocError>
    ensures { IfOk result (λ words. map (λ word. word.now) words.items ≡ words_of text.now) }
{
    text.split_terminator('\0').collect(alloc)
}

/// Does what is asked for, with what the host has read of the input.
fn reply_to(
    alloc: Global,
    request: Request<'_>,
    given: u32,
    is_terminal: bool,
    input: &[u8],
    room: &mut [u8],
) -> Reply
    requires { IsTaskWithinLimits request.task }
    ensures { RepliesToInput given request.entry.task request.entry.source (request.entry.explain || is_terminal)
        input.now room.old room.new result }
{
    let explain = either(request.explain, is_terminal);
    match given {
        0 => ask_for(request.task, request.source, room),
        1 => put_task(alloc, request.task, request.source, explain, input, room),
        _ => put_unreadable(alloc, request.source, room),
    }
}

/// Whether one of two things is so.
fn either(one: bool, other: bool) -> bool
    ensures { result ≡ (one || other) }
{
    one || other
}

/// Puts the help that was asked for, or why the words are refused.
#[tactic(auto, using(crate::proofs::Replies::refused_words, crate::proofs::Replies::helped))]
fn refuse(alloc: Global, error: &Error, room: &mut [u8]) -> Reply
    ensures { RepliesToRefusal (kind_of error.now) room.old room.new result }
{
    if error.kind() == ErrorKind::OutOfMemory {
        return put_no_memory(room);
    }
    let Ok(text) = format!(in alloc; "{error}") else {
        return put_no_memory(room);
    };
    if error.use_stderr() {
        put(Ending::Refused.status(), &[], text.as_str(), room)
    } else {
        put(Ending::Done.status(), text.as_bytes(), "", room)
    }
}
