//! What the host gets.

ghost use Rattle.std.specs.Prelude.{◌≡◌};
ghost use Rattle.sabsim_wasm.specs.Program.{no_memory, written_of};
ghost use Rattle.sabsim_wasm.specs.Room.{AsksFor, IsCut, Puts, PutsBoth, PutsLines, input_of, searched_input};

use sab_cli::command::{SearchForm, Source, Task};
use sab_cli::exit::Ending;
use sab_replay::faults::ToolFault;

/// How a call ended, and how much of the room it needs.
#[repr(C)]
#[derive(Clone, Copy, Debug, PartialEq, Eq)]
pub struct Reply {
    /// The exit status of the program; or what the input is that is to be read: 0 for a script, 1 for a trace, 2 for a
    /// file of automata, 3 for one whose states are to be written.
    pub status: u64,
    /// How many bytes are for standard output; or the length of the name of the file that is to be read.
    pub output_len: u64,
    /// How many bytes are for standard error.
    pub complaint_len: u64,
    /// What the host has to read before it calls again: 0 for nothing, 1 for standard input, 2 for the file whose name
    /// is in the room.
    pub wants: u64,
    /// How many bytes that are for standard output were left out, since the room is too small for them: 0 except of a
    /// search.
    pub left_out: u64,
}

/// What the program prints on standard error if there is no memory, also none for a text.
static NO_MEMORY: &str = "sabsim: 5 OutOfMemory\n";

/// Puts what the program writes into the room, and returns its exit status and the lengths.
pub(crate) fn put(status: u8, output: &[u8], complaint: &str, room: &mut [u8]) -> Reply
    ensures { Puts 0 (written_of status output.now complaint.now) room.old room.new result }
{
    put_both(output, complaint.as_bytes(), room);
    Reply {
        status: status as u64,
        output_len: output.len() as u64,
        complaint_len: complaint.len() as u64,
        wants: 0,
        left_out: 0,
    }
}

/// Puts the first lines of a text into the room, as many as fit.
pub(crate) fn put_lines(status: u8, text: &[u8], room: &mut [u8]) -> Reply
    ensures { PutsLines status text.now room.old room.new result }
{
    let cut = lines_within(text, room.len());
    room[..cut].copy_from_slice(&text[..cut]);
    Reply {
        status: status as u64,
        output_len: cut as u64,
        complaint_len: 0,
        wants: 0,
        left_out: (text.len() - cut) as u64,
    }
}

/// How many bytes the first lines of a text have that fit into so many bytes.
fn lines_within(text: &[u8], size: usize) -> usize
    ensures { IsCut text.now size result }
{
    let mut cut = text.len().min(size);
    while cut > 0 && text[cut - 1] != b'\n' {
        cut -= 1;
    }
    cut
}

/// Puts bytes into the room, and others right after them, if both fit.
fn put_both(first: &[u8], second: &[u8], room: &mut [u8])
    ensures { PutsBoth first.now second.now room.old room.new }
{
    let middle = first.len();
    let end = second.len();
    if middle <= room.len() && end <= room.len() - middle {
        room[..middle].copy_from_slice(first);
        room[middle..middle + end].copy_from_slice(second);
    }
}

/// Puts what the program prints if there is no memory.
pub(crate) fn put_no_memory(room: &mut [u8]) -> Reply
    ensures { Puts 0 no_memory room.old room.new result }
{
    let status = Ending::Failed(ToolFault::OutOfMemory).status();
    put(status, &[], NO_MEMORY, room)
}

/// Asks the host for the input of a task.
pub(crate) fn ask_for(task: Task, source: Source<'_>, room: &mut [u8]) -> Reply
    ensures { AsksFor task source.entry room.old room.new result }
{
    let input = input_of(task);
    match source {
        Source::Standard => Reply {
            wants: 1,
            ..put(input, &[], "", room)
        },
        Source::File(name) => Reply {
            wants: 2,
            ..put(input, name.as_bytes(), "", room)
        },
    }
}

/// What the input of a task is.
fn input_of(task: Task) -> u8
    ensures { result ≡ input_of task }
{
    match task {
        Task::OfScript(_) | Task::OfRace(_) => 0,
        Task::OfTrace(_) => 1,
        Task::OfSearch(job) => searched_input(job.form),
    }
}

/// What the input of a search is.
fn searched_input(form: SearchForm) -> u8
    ensures { result ≡ searched_input form }
{
    match form {
        SearchForm::Findings { states: true, .. } => 3,
        SearchForm::Findings { states: false, .. } | SearchForm::Script { .. } => 2,
    }
}
