//! How many events have an access, of how many agents they are, and how many races are data races.

ghost use Rattle.std.specs.Prelude.{◌≡◌, ◌<◌, ◌≤◌, All, count_by};
ghost use Rattle.sab_judge.specs.declared.event.Event.{Event};
ghost use Rattle.sab_judge.specs.declared.trace.TheConstants.Trace.{MAX_AGENTS};
ghost use Rattle.sab_verdict.specs.Events.{has_access, accesses_of, agents_of, data_races_in};

use sab_judge::{Event, Race, Trace};

/// How many events have an access.
#[tactic(auto, unfolding(crate::specs::Events::accesses_of))]
pub(crate) fn count_accesses(events: &[Event]) -> usize
    ensures { result ≡ accesses_of events.now }
{
    events.iter().filter(|event| event.access.is_some()).count()
}

/// How many of the races are data races.
#[tactic(auto, unfolding(crate::specs::Events::data_races_in))]
pub(crate) fn count_data_races(races: &[Race]) -> usize
    ensures { result ≡ data_races_in races.now }
{
    races.iter().filter(|race| race.is_data_race).count()
}

/// How many agents have events with an access.
#[tactic(auto, using(crate::proofs::Counting::counted_agents))]
pub(crate) fn count_agents(events: &[Event]) -> usize
    requires { All (λ (e : Event). e.agent < MAX_AGENTS) events.now }
    ensures { result ≡ agents_of events.now }
{
    let mut seen = [false; Trace::MAX_AGENTS as usize];
    for event in events {
        if event.access.is_some() {
            seen[event.agent as usize] = true;
        }
    }
    count_true(&seen)
}

/// How many of these are true.
fn count_true(values: &[bool]) -> usize
    ensures { result ≡ count_by (λ b. b) values.now }
{
    values.iter().filter(|value| **value).count()
}
