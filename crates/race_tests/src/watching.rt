//! A gate that counts its calls, and leaves it to another to hold moves back.

use crate::calls::Calls;
use sab_race::Gate;
use std::sync::atomic::{AtomicBool, Ordering};

/// Holds moves back.
pub trait Hold: Send + Sync + Drop {
    /// Holds an agent back before its move `k`, and returns whether what it waited for came.
    fn before(&self, agent: u32, k: u32) -> bool;

    /// Holds back the caller once move `k` was made, and returns whether what it waited for came.
    fn applied(&self, agent: u32, k: u32) -> bool;
}

/// Counts the calls of a gate, and holds moves back as `hold` does, until something that it waited for didn't come.
#[derive(Drop)]
pub struct Watch<H: Hold> {
    pub hold: H,
    began: Calls,
    ended: Calls,
    applied: Calls,
    was_missed: AtomicBool,
}

impl<H: Hold> Watch<H> {
    /// Nothing is counted yet.
    pub fn new(hold: H) -> Watch<H> {
        Watch {
            hold,
            began: Calls::new(),
            ended: Calls::new(),
            applied: Calls::new(),
            was_missed: AtomicBool::new(false),
        }
    }

    /// Whether all that was waited for came, so many moves of each agent were reported, before and after each, in
    /// order, and no call is under way.
    pub fn saw(&self, moves: &[u32]) -> bool {
        !self.was_missed.load(Ordering::SeqCst)
            && self.began.are(moves)
            && self.ended.are(moves)
            && self.applied.are(moves)
    }
}

impl<H: Hold> Gate for Watch<H> {
    fn before(&self, agent: u32, k: u32) {
        self.began.add(agent, k);
        if !self.was_missed.load(Ordering::SeqCst) && !self.hold.before(agent, k) {
            self.was_missed.store(true, Ordering::SeqCst);
        }
        self.ended.add(agent, k);
    }

    fn applied(&self, agent: u32, k: u32) {
        self.applied.add(agent, k);
        if !self.was_missed.load(Ordering::SeqCst) && !self.hold.applied(agent, k) {
            self.was_missed.store(true, Ordering::SeqCst);
        }
    }
}
