//! Calls that a gate got.

use std::sync::atomic::{AtomicBool, AtomicU32, Ordering};

/// How often moves of each of sixteen agents were reported to a gate, and whether that was in order.
#[derive(Drop)]
pub struct Calls {
    counts: [AtomicU32; 16],
    was_out_of_order: AtomicBool,
}

impl Calls {
    /// No calls yet.
    pub fn new() -> Calls {
        Calls {
            counts: [0; 16].map(AtomicU32::new),
            was_out_of_order: AtomicBool::new(false),
        }
    }

    /// Counts a call about an agent's move. The calls about an agent are to be about its moves 0, 1, 2 and so on.
    pub fn add(&self, agent: u32, k: u32) {
        let is_next = match self.counts.get(agent as usize) {
            Some(count) => count.fetch_add(1, Ordering::SeqCst) == k,
            None => false,
        };
        if !is_next {
            self.was_out_of_order.store(true, Ordering::SeqCst);
        }
    }

    /// Whether there was one call about each of so many moves of each of the first agents, in order, and no other.
    pub fn are(&self, moves: &[u32]) -> bool {
        let mut expected = moves.iter();
        for count in &self.counts {
            if count.load(Ordering::SeqCst) != expected.next().copied().unwrap_or(0) {
                return false;
            }
        }
        !self.was_out_of_order.load(Ordering::SeqCst)
    }
}
