//! A gate that shows whether threads go on.

use sab_race::Gate;
use std::sync::atomic::{AtomicU64, Ordering};
use std::thread;

/// How often a thread turns before its first move, so that it hasn't ended when the next one starts.
const TURNS_AT_FIRST: u32 = 1_000;

/// So many turns a thread that goes on makes a move at the latest.
const TURNS_TO_SEE: u32 = 1_000_000;

/// Counts the calls of `before` that began, and those that ended.
#[derive(Drop)]
pub struct Counter {
    began: AtomicU64,
    ended: AtomicU64,
}

impl Counter {
    /// No call yet.
    pub fn new() -> Counter {
        Counter {
            began: AtomicU64::new(0),
            ended: AtomicU64::new(0),
        }
    }

    /// Whether so many calls began, and as many have ended.
    pub fn is_at(&self, calls: u64) -> bool {
        self.began.load(Ordering::SeqCst) == calls && self.ended.load(Ordering::SeqCst) == calls
    }

    /// Whether all calls that began have ended, and none begins for many turns.
    pub fn is_at_rest(&self) -> bool {
        let calls = self.ended.load(Ordering::SeqCst);
        if !self.is_at(calls) {
            return false;
        }
        turn(TURNS_TO_SEE);
        self.is_at(calls)
    }
}

impl Gate for Counter {
    fn before(&self, _agent: u32, k: u32) {
        self.began.fetch_add(1, Ordering::SeqCst);
        if k == 0 {
            turn(TURNS_AT_FIRST);
        }
        self.ended.fetch_add(1, Ordering::SeqCst);
    }

    fn applied(&self, _agent: u32, _k: u32) {}
}

/// Lets other threads take so many turns.
fn turn(turns: u32) {
    for _ in 0..turns {
        thread::yield_now();
    }
}
