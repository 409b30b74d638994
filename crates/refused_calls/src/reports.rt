//! Scripts whose reports are written into an array.

use crate::found::Found;
use crate::scripts::{ITS_REPORT, STORE_AND_LOAD, STORED_AND_LOADED, THREE_WHO_WAIT};
use crate::texts::{ROOM, is_text, is_unwritten};
use sab_replay::faults::ToolFault;
use sab_replay::script_runner::{Share, race_bytes, replay_bytes};
use std::alloc::Global;
use std::sync::Wait;
use std::thread::Threads;

/// What an array of which so many bytes are left shows of a run whose text is to be this.
fn found(answer: Result<(), ToolFault>, room: &[u8], left: usize, text: &str) -> Found {
    match answer {
        Ok(()) => Found::answer(is_text(room, left, text)),
        Err(fault) => Found::fault(fault, is_unwritten(room, left)),
    }
}

/// The script with agents that wait is replayed.
pub fn replayed(alloc: Global) -> Found {
    let mut room = [0; ROOM];
    let mut rest = room.as_mut_slice();
    let answer = replay_bytes(alloc, THREE_WHO_WAIT.as_bytes(), &mut rest);
    let left = rest.len();
    found(answer, &room, left, ITS_REPORT)
}

/// The agent that stores and loads runs in a thread.
pub fn raced<R: Threads + Wait + Sync>(rt: &R, alloc: Global, share: Share) -> Found {
    let mut room = [0; ROOM];
    let mut rest = room.as_mut_slice();
    let answer = race_bytes(rt, alloc, STORE_AND_LOAD.as_bytes(), share, 0, &mut rest);
    let left = rest.len();
    found(answer, &room, left, STORED_AND_LOADED)
}
