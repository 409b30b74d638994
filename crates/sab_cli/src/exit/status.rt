//! Exit statuses.

ghost use Rattle.std.specs.Prelude.{◌≡◌};
ghost use Rattle.sab_cli.specs.Exit.Status.{status_after};

use sab_replay::faults::ToolFault;

/// The exit status after a fault: 1 if the input was refused, 3 where standard input or output failed, 4 where
/// there was no memory or no thread.
pub(crate) fn status_of(fault: ToolFault) -> u8
    ensures { result ≡ status_after fault }
{
    match fault {
        ToolFault::OutOfMemory | ToolFault::NoThread => 4,
        ToolFault::WriteFailed | ToolFault::ReadFailed => 3,
        ToolFault::TooMany
        | ToolFault::TooManyMoves
        | ToolFault::BadShape
        | ToolFault::BadName
        | ToolFault::BadNumber
        | ToolFault::BadCall
        | ToolFault::BadView
        | ToolFault::BadAgent
        | ToolFault::NotJson
        | ToolFault::TooLong
        | ToolFault::NoBlock
        | ToolFault::BadEdge
        | ToolFault::NoNode
        | ToolFault::BadRange
        | ToolFault::OrdinaryData => 1,
    }
}
