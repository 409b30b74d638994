//! What is reported about the races of a trace.

use crate::race::Race;

/// The first races of a trace, how many more there are, and how many of all are data races.
#[derive(Debug, Drop)]
pub struct Verdict {
    /// The races that are listed, by their later events, and those of one later event by their earlier ones.
    pub races: Vec<Race>,
    /// How many races aren't listed.
    pub rest: u64,
    /// How many of all races, those that aren't listed too, are data races.
    pub data_races: u64,
}

impl Verdict {
    ghost use Rattle.std.specs.Prelude.{◌↔◌, ℕ, IsTrue, List};
    ghost use Rattle.sab_judge.specs.declared.event.Event.{Event};
    ghost use Rattle.sab_judge.specs.Race.{HaveNoRace};
    ghost use Rattle.sab_judge.specs.Verdict.{IsVerdict};

    /// Whether the trace that was judged has no race, so that it has no data race.
    pub fn has_no_race(&self) -> bool
        ensures { (trace : List Event) (most : ℕ)
            → IsVerdict trace most self.now.races.items self.now.rest self.now.data_races
            → IsTrue result ↔ HaveNoRace trace }
    {
        self.races.is_empty() && self.rest == 0
    }
}
