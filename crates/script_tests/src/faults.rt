//! What errors print.

use sab_block::Thrown;
use sab_race::RaceFault;
use sab_replay::faults::{ReadFault, ToolFault};
use sab_sim::{PlanFault, SimFault};
use std::alloc::{AllocError, Global};
use std::fmt;
use std::test::Fail;
use test_helpers::expect;

const THROWN: [Thrown; 2] = [Thrown::TypeError, Thrown::RangeError];

const PLAN_FAULTS: [PlanFault; 3] = [PlanFault::TooMany, PlanFault::NoBlock, PlanFault::NoView];

const SIM_FAULTS: [SimFault; 3] = [SimFault::NoAgent, SimFault::Full, SimFault::OutOfMemory];

const RACE_FAULTS: [RaceFault; 3] = [
    RaceFault::TooManyMoves,
    RaceFault::OutOfMemory,
    RaceFault::NoThread,
];

const READ_FAULTS: [ReadFault; 9] = [
    ReadFault::TooMany,
    ReadFault::BadShape,
    ReadFault::BadName,
    ReadFault::BadNumber,
    ReadFault::BadCall,
    ReadFault::BadView,
    ReadFault::BadAgent,
    ReadFault::NoBlock,
    ReadFault::OutOfMemory,
];

const OF_READING: &str = "\
the script has more of something than it can have
a value of the script has another shape than its place asks for
a view's name has a wrong form or is given twice, or a call is on a name that no view has
a number of the script isn't whole, or out of range
a call's name isn't there, or it has a wrong number of elements
a view has a kind that isn't there, or doesn't fit its block
a move names an agent that isn't there
the script has no block, or a view names one that isn't there
there is no memory for the script
";

const OF_PLANS: &str = "\
the plan has more of something than it can have
the plan has no block, or a view on a block that isn't there
a view doesn't fit its block, or a call is on a view that isn't there
";

const OF_MOVES: &str = "\
the move names no agent
the journal is full
there is no memory for the move
";

const OF_RACES: &str = "\
the agents have more moves than a journal can have entries
there is no memory for the race
a thread couldn't be started
";

/// What errors print, a line for each.
fn lines<T: fmt::Display>(alloc: Global, errors: &[T]) -> Result<String, AllocError> {
    let mut lines = String::new(alloc);
    for error in errors {
        lines.push_str(format!(in alloc; "{error}\n")?.as_str())?;
    }
    Ok(lines)
}

/// Fails, and shows what is expected, if errors print other lines.
fn print<T: fmt::Display>(alloc: Global, errors: &[T], text: &'static str) -> Result<(), Fail> {
    expect(lines(alloc, errors)?.as_str() == text, text)
}

#[test]
fn an_error_prints_what_is_wrong(rt: HostRuntime) -> Result<(), Fail> {
    let alloc = rt.alloc();
    print(alloc, &THROWN, "TypeError\nRangeError\n")?;
    print(alloc, &PLAN_FAULTS, OF_PLANS)?;
    print(alloc, &SIM_FAULTS, OF_MOVES)?;
    print(alloc, &RACE_FAULTS, OF_RACES)?;
    print(alloc, &READ_FAULTS, OF_READING)
}

const TOOL_FAULTS: [ToolFault; 19] = [
    ToolFault::TooMany,
    ToolFault::OutOfMemory,
    ToolFault::TooManyMoves,
    ToolFault::NoThread,
    ToolFault::BadShape,
    ToolFault::BadName,
    ToolFault::BadNumber,
    ToolFault::BadCall,
    ToolFault::BadView,
    ToolFault::BadAgent,
    ToolFault::NotJson,
    ToolFault::WriteFailed,
    ToolFault::TooLong,
    ToolFault::ReadFailed,
    ToolFault::NoBlock,
    ToolFault::OrdinaryData,
    ToolFault::BadEdge,
    ToolFault::NoNode,
    ToolFault::BadRange,
];

/// The number of each, its name, and what it prints.
const OF_TOOLS: &str = "\
3 TooMany TooMany
5 OutOfMemory OutOfMemory
8 TooManyMoves TooManyMoves
9 NoThread NoThread
10 BadShape BadShape
11 BadName BadName
12 BadNumber BadNumber
13 BadCall BadCall
14 BadView BadView
15 BadAgent BadAgent
16 NotJson NotJson
17 WriteFailed WriteFailed
18 TooLong TooLong
19 ReadFailed ReadFailed
20 NoBlock NoBlock
21 OrdinaryData OrdinaryData
22 BadEdge BadEdge
23 NoNode NoNode
24 BadRange BadRange
";

#[test]
fn a_tool_fault_prints_its_name(rt: HostRuntime) -> Result<(), Fail> {
    let alloc = rt.alloc();
    let mut lines = String::new(alloc);
    for fault in &TOOL_FAULTS {
        let (number, name) = (fault.number(), fault.name());
        lines.push_str(format!(in alloc; "{number} {name} {fault}\n")?.as_str())?;
    }
    expect(lines.as_str() == OF_TOOLS, "another number or name")
}
