//! Turning until other threads came along.

use std::sync::atomic::{AtomicU32, Ordering};
use std::thread;

/// After so many turns nobody is expected any more.
const MOST_TURNS: u64 = 100_000_000;

/// Turns so often.
pub fn turn(times: u64) {
    for _ in 0..times {
        thread::yield_now();
    }
}

/// Turns until a count is so high, and returns whether it was before the last turn.
pub fn turn_until(count: &AtomicU32, least: u32) -> bool {
    turn_at_most(MOST_TURNS, count, least)
}

/// Turns until a count is so high or so many turns are over, and returns whether the count was so high.
pub fn turn_at_most(times: u64, count: &AtomicU32, least: u32) -> bool {
    for _ in 0..times {
        if count.load(Ordering::SeqCst) >= least {
            return true;
        }
        thread::yield_now();
    }
    false
}
