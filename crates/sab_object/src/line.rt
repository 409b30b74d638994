//! The line of waiters.

ghost use Rattle.std.specs.Prelude.{◌≡◌, ◌<◌, ◌≤◌, ℕ, ◌||◌, ◌&&◌, ◌==◌, not, true, false, Contains, length, take};
ghost use Rattle.std.specs.Prelude.{filter, slice_index_or, vec_capacity};
ghost use Rattle.std.specs.List.{list_any};
ghost use Rattle.sab_plan.specs.declared.plan.TheConstants.Plan.{MAX_AGENTS};
ghost use Rattle.sab_object.specs.Object.{woken_count, waiters, without_first, is_at};
ghost use Rattle.sab_object.specs.Kept.{AreAgents, is_in};

use sab_plan::{Place, Waiter};

/// Wakes the agents that wait at a place, oldest first, as many as the count says, and returns how many.
pub fn wake(line: &mut Vec<Waiter>, woken: &mut [bool], place: Place, count: Option<i64>) -> u32
    requires agents { AreAgents (length woken.old) line.old.items }
    requires few { length woken.old ≤ MAX_AGENTS }
    ensures many { result ≡ woken_count count (length (waiters place line.old.items)) }
    ensures line { line.new.items ≡ without_first result place line.old.items }
    ensures woken { (b : ℕ) → slice_index_or woken.new b false
        ≡ (slice_index_or woken.old b false || list_any (λ a. a == b) (take result (waiters place line.old.items))) }
    ensures agents { AreAgents (length woken.old) line.new.items }
    ensures capacity { vec_capacity line.new ≡ vec_capacity line.old }
{
    let many = woken_count(count, waiting_at(line, place));
    let mut left = many;
    let mut i = 0;
    while left > 0 && i < line.len() {
        if line[i].place == place {
            let waiter = line.remove(i);
            woken[waiter.agent as usize] = true;
            left -= 1;
        } else {
            i += 1;
        }
    }
    many as u32
}

/// How many wait at a place.
fn waiting_at(line: &[Waiter], place: Place) -> usize
    ensures value { result ≡ length (filter (is_at place) line.now) }
    ensures most { result ≤ length line.now }
{
    line.iter().filter(|waiter| waiter.place == place).count()
}

/// How many of those who wait are woken; no count is no bound, and a negative one is 0.
pub fn woken_count(count: Option<i64>, waiting: usize) -> usize
    ensures many { result ≡ woken_count count waiting }
    ensures most { result ≤ waiting }
{
    match count {
        Some(n) if n < 0 => 0,
        Some(n) => waiting.min(n as usize),
        None => waiting,
    }
}

/// An agent that was woken leaves.
pub fn depart(woken: &mut [bool], agent: u32)
    requires { agent < length woken.old }
    ensures { (b : ℕ) → slice_index_or woken.new b false ≡ (slice_index_or woken.old b false && not (b == agent)) }
{
    woken[agent as usize] = false;
}

/// Takes a waiter off the line, and returns whether it was there.
pub fn take_off(line: &mut Vec<Waiter>, waiter: Waiter) -> bool
    ensures there { result ≡ true → Contains line.old.items waiter }
    ensures line { result ≡ true → line.new.items ≡ filter
        (λ w. not (is_at waiter.place w && (w.agent == waiter.agent))) line.old.items }
    ensures absent { result ≡ false → Contains line.old.items waiter → ⊥ }
    ensures agents { (n : ℕ) → AreAgents n line.old.items → AreAgents n line.new.items }
    ensures capacity { vec_capacity line.new ≡ vec_capacity line.old }
{
    if !line.contains(&waiter) {
        return false;
    }
    let mut i = 0;
    while i < line.len() {
        if is_other(line[i], waiter) {
            i += 1;
        } else {
            line.remove(i);
        }
    }
    true
}

/// Whether a waiter isn't the other.
fn is_other(w: Waiter, waiter: Waiter) -> bool
    ensures { result ≡ not (is_at waiter.place w && (w.agent == waiter.agent)) }
{
    !(w.place == waiter.place && w.agent == waiter.agent)
}

/// Whether an agent stands in the line.
pub fn is_in(line: &[Waiter], agent: u32) -> bool
    ensures { result ≡ is_in line.now agent }
{
    line.iter().any(|w| w.agent == agent)
}
