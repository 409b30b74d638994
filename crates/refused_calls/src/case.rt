//! The cases: calls that are made while memory or threads are refused.

use sab_replay::script_runner::Share;

/// What is called.
#[derive(Clone, Copy)]
pub enum Call {
    Block,
    PlanCopy,
    SimNew,
    /// Ten steps are reserved after so many moves.
    SimReserve(usize),
    SimStep,
    ReservedSteps,
    Replay,
    Moves,
    ReadInput,
    ReadSetup,
    WriteReport,
    /// Agents run in threads.
    Run(Share),
    /// The report of a replay is written into an array.
    ReplayBytes,
    /// The report of a race is written into an array.
    RaceBytes(Share),
}

/// A call, its name on the command line, and its answer when nothing is refused.
#[derive(Clone, Copy)]
pub struct Case {
    pub name: &'static str,
    pub call: Call,
    pub answer: &'static str,
}

fn row(name: &'static str, call: Call, answer: &'static str) -> Case {
    Case { name, call, answer }
}

const STEPS: &str = "10 entries and their report";

const SUM: &str = "bytes 90010000, 1200 entries, each agent 100 of 100";

const TEXT: &str = "the text of its report";

/// All cases, in the order in which they are run.
pub fn cases() -> [Case; 17] {
    [
        row("block", Call::Block, "4 zero bytes"),
        row("plan-copy", Call::PlanCopy, "an equal plan"),
        row(
            "sim-new",
            Call::SimNew,
            "a simulator of the plan, and no entry",
        ),
        row("sim-reserve", Call::SimReserve(0), STEPS),
        row("sim-reserve-more", Call::SimReserve(4), STEPS),
        row("sim-step", Call::SimStep, STEPS),
        row("reserved-steps", Call::ReservedSteps, STEPS),
        row("replay", Call::Replay, "its report of 10 entries"),
        row("moves", Call::Moves, "10 moves"),
        row("read-input", Call::ReadInput, "10000 spaces"),
        row(
            "read-setup",
            Call::ReadSetup,
            "its plan, its view and its 16 moves",
        ),
        row("replay-bytes", Call::ReplayBytes, TEXT),
        row("write-report", Call::WriteReport, TEXT),
        row("run-locked", Call::Run(Share::Lock), SUM),
        row("run-rings", Call::Run(Share::Ring), SUM),
        row("race-bytes-lock", Call::RaceBytes(Share::Lock), TEXT),
        row("race-bytes-ring", Call::RaceBytes(Share::Ring), TEXT),
    ]
}
