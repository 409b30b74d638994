//! Scripts, what they are read from, and what is made of them.

use crate::found::{Found, Refusal, Unmade};
use crate::plans::{TWO_WAITS, WAIT_AND_LOAD, plan_of};
use crate::texts::{are_all, is_report};
use sab_race::moves;
use sab_replay::faults::{ReadFault, ToolFault};
use sab_replay::script_runner::{read_input, read_setup, setup_of, write_report};
use sab_sim::Move::{self, Step, TimeUp};
use sab_sim::SimFault;
use serde_json::Value;
use std::alloc::Global;
use std::io;
use std::io::Read;

/// An agent that can't block, two that wait, and one that wakes them.
pub const THREE_WHO_WAIT: &str = r#"{"blocks":[4],
  "views":[{"name":"a","kind":"Int32","block":0,"offset":0,"length":null}],
  "agents":[
    {"block":false,"calls":[["wait","a",0,0],["wait","a",9,0]]},
    {"block":true,"calls":[["wait","a",0,0]]},
    {"block":true,"calls":[["wait","a",0,0]]},
    {"block":true,"calls":[["notify","a",0,-3],["notify","a",0]]}],
  "schedule":[0,0,0,0,0,0,1,1,2,2,3,3,3,3,3,3]}"#;

/// The moves of its schedule.
const ITS_MOVES: [Move; 16] = [
    Step(0),
    Step(0),
    Step(0),
    Step(0),
    Step(0),
    Step(0),
    Step(1),
    Step(1),
    Step(2),
    Step(2),
    Step(3),
    Step(3),
    Step(3),
    Step(3),
    Step(3),
    Step(3),
];

/// The text of its report.
pub const ITS_REPORT: &str = "\
0 0 0 begin
1 0 0 act TypeError
2 0 0 return TypeError
3 0 1 begin
4 0 1 act RangeError
5 0 1 return RangeError
6 1 0 begin
7 1 0 wait
8 2 0 begin
9 2 0 wait
10 3 0 begin
11 3 0 act 0
12 3 0 return 0
13 3 1 begin
14 3 1 act 2
15 3 1 return 2
block 0 00000000
agent 0 2 of 2
agent 1 0 of 1
agent 2 0 of 1
agent 3 2 of 2
";

/// An agent that stores a value in a byte and loads it.
pub const STORE_AND_LOAD: &str = r#"{"blocks":[1],
  "views":[{"name":"a","kind":"Uint8","block":0,"offset":0,"length":null}],
  "agents":[{"block":true,"calls":[["store","a",0,300],["load","a",0]]}],
  "schedule":[0,0,0,0,0,0]}"#;

/// The text of its report, replayed or raced.
pub const STORED_AND_LOADED: &str = "\
0 0 0 begin
1 0 0 act 300
2 0 0 return 300
3 0 1 begin
4 0 1 act 44
5 0 1 return 44
block 0 2c
agent 0 2 of 2
";

/// The moves of the plan `TWO_WAITS`.
const THEIR_MOVES: [Move; 10] = [
    Step(0),
    Step(0),
    TimeUp(0),
    Step(1),
    Step(1),
    TimeUp(1),
    Step(1),
    Step(1),
    Step(1),
    Step(1),
];

/// The text of their report.
const THEIR_REPORT: &str = "\
0 0 0 begin
1 0 0 wait
2 0 0 stuck endless
3 1 0 begin
4 1 0 wait
5 1 0 leave timed-out
6 1 0 return timed-out
7 1 1 begin
8 1 1 act 0
9 1 1 return 0
block 0 0000000000000000
agent 0 0 of 1
agent 1 2 of 2
";

/// A schedule is replayed.
pub fn replay(alloc: Global) -> Result<Found, Unmade> {
    let plan = plan_of(alloc, TWO_WAITS)?;
    Ok(match sab_sim::replay(alloc, plan, THEIR_MOVES.as_slice()) {
        Ok(report) => Found::answer(
            report.schedule.as_slice() == THEIR_MOVES.as_slice()
                && is_report(&report, THEIR_REPORT),
        ),
        Err(SimFault::OutOfMemory) => Found::Refused(Refusal::OutOfMemory),
        Err(SimFault::NoAgent | SimFault::Full) => Found::Wrong("another fault"),
    })
}

/// The moves of agent 2 for a wait that is stepped at twice, and for a load.
const WAITED_AND_LOADED: [Move; 10] = [
    Step(2),
    Step(2),
    Step(2),
    Step(2),
    TimeUp(2),
    Step(2),
    Step(2),
    Step(2),
    Step(2),
    Step(2),
];

/// The moves of a script are made.
pub fn script_moves(alloc: Global) -> Result<Found, Unmade> {
    let plan = plan_of(alloc, WAIT_AND_LOAD)?;
    let Some(script) = plan.scripts().first() else {
        return Err(Unmade::Wrong("no script"));
    };
    Ok(match moves(alloc, script, 2, 2) {
        Ok(made) => Found::answer(made.as_slice() == WAITED_AND_LOADED.as_slice()),
        Err(_) => Found::Refused(Refusal::AllocError),
    })
}

/// How many bytes the input has.
const LEN: usize = 10_000;

/// How many bytes a read gives at most.
const AT_ONCE: usize = 1_000;

/// Gives so many spaces.
#[derive(Drop)]
struct Spaces(usize);

impl Read for Spaces {
    fn read(&mut self, buf: &mut [u8]) -> io::Result<usize> {
        let count = buf.len().min(self.0).min(AT_ONCE);
        buf[..count].fill(b' ');
        self.0 -= count;
        Ok(count)
    }
}

/// An input is read.
pub fn input(alloc: Global) -> Found {
    match read_input(alloc, &mut Spaces(LEN)) {
        Ok(input) => Found::answer(input.len() == LEN && are_all(input.as_slice(), b' ')),
        Err(ToolFault::OutOfMemory) => Found::Refused(Refusal::OutOfMemory),
        Err(_) => Found::Wrong("another fault"),
    }
}

/// A setup is read of a tree. It has the plan that the reader of tokens makes of the same script, one view that is
/// named `a`, and the moves of the schedule.
pub fn setup(alloc: Global) -> Result<Found, Unmade> {
    let tree = match Value::from_str(alloc, THREE_WHO_WAIT) {
        Ok(tree) => tree,
        Err(error) if error.is_memory() => return Err(Unmade::OutOfMemory),
        Err(_) => return Err(Unmade::Wrong("no tree")),
    };
    let plan = plan_of(alloc, THREE_WHO_WAIT)?;
    Ok(match read_setup(alloc, &tree) {
        Ok(setup) => Found::answer(
            *setup.plan() == plan
                && setup.views().len() == 1
                && setup.views().contains_key("a")
                && setup.schedule() == ITS_MOVES.as_slice(),
        ),
        Err(ReadFault::OutOfMemory) => Found::Refused(Refusal::OutOfMemory),
        Err(_) => Found::Wrong("another fault"),
    })
}

/// A report is written into a vector that grows.
pub fn written(alloc: Global) -> Result<Found, Unmade> {
    let (plan, schedule) = setup_of(alloc, STORE_AND_LOAD.as_bytes())?.into_parts();
    let report = match sab_sim::replay(alloc, plan, schedule.as_slice()) {
        Ok(report) => report,
        Err(SimFault::OutOfMemory) => return Err(Unmade::OutOfMemory),
        Err(_) => return Err(Unmade::Wrong("no report")),
    };
    let mut text = Vec::new(alloc);
    Ok(match write_report(&report, &mut text) {
        Ok(()) => Found::answer(text.as_slice() == STORED_AND_LOADED.as_bytes()),
        Err(fault) if fault.number() == 17 => Found::Refused(Refusal::WriteFailed),
        Err(_) => Found::Wrong("another fault"),
    })
}
