//! Calls of an agent.

ghost use Rattle.std.specs.Prelude.{◌≡◌, ◌≤◌, length, map};
ghost use Rattle.sab_block.specs.Access.{operands_of};
ghost use Rattle.sab_plan.specs.declared.argument.Argument.TheVariants.{Value};
ghost use Rattle.sab_plan.specs.Call.{function_of, view_of, index_of, arguments_of, items_of};

use crate::argument::{Argument, Arguments};
use sab_block::{Access, Operand};

/// A call of an agent, on a view that is named by its position in the plan.
#[derive(Clone, Copy, Debug, PartialEq, Eq)]
pub enum Call {
    /// One of the functions that read or write an element.
    Access {
        /// The position of its view.
        view: u32,
        /// What it does there.
        access: Access,
    },
    /// `Atomics.wait`. A timeout that is absent never ends the wait; of one that is there the number has no effect.
    Wait {
        view: u32,
        index: i64,
        value: Operand,
        timeout: Option<i64>,
    },
    /// `Atomics.notify`. A count that is absent is no bound, and a negative one is 0.
    Notify {
        view: u32,
        index: i64,
        count: Option<i64>,
    },
}

impl Call {
    /// The name of the function of `Atomics` that it is a call of.
    pub fn function(self) -> &'static str
        ensures name { result.now ≡ function_of self }
        ensures len { length result.now ≤ 15 }
    {
        match self {
            Call::Access { access, .. } => access.function(),
            Call::Wait { .. } => "wait",
            Call::Notify { .. } => "notify",
        }
    }

    /// The position of the view that it names.
    pub fn view(self) -> u32
        ensures { result ≡ view_of self }
    {
        match self {
            Call::Access { view, .. } | Call::Wait { view, .. } | Call::Notify { view, .. } => view,
        }
    }

    /// The index of the element that it names.
    pub fn index(self) -> i64
        ensures { result ≡ index_of self }
    {
        match self {
            Call::Access { access, .. } => access.index(),
            Call::Wait { index, .. } | Call::Notify { index, .. } => index,
        }
    }

    /// What it takes behind its index: its operands, then its timeout or its count.
    pub fn arguments(self) -> Arguments
        ensures { items_of result ≡ arguments_of self }
    {
        match self {
            Call::Access { access, .. } => operands(access),
            Call::Wait {
                value,
                timeout: None,
                ..
            } => Arguments::One([Argument::Value(value)]),
            Call::Wait {
                value,
                timeout: Some(timeout),
                ..
            } => Arguments::Two([Argument::Value(value), Argument::Limit(timeout)]),
            Call::Notify { count: None, .. } => Arguments::None,
            Call::Notify {
                count: Some(count),
                ..
            } => Arguments::One([Argument::Limit(count)]),
        }
    }
}

/// The operands of an access, from left to right.
fn operands(access: Access) -> Arguments
    ensures { items_of result ≡ map Value (operands_of access) }
{
    match access {
        Access::Load { .. } => Arguments::None,
        Access::Store { value, .. } | Access::Rmw { value, .. } => {
            Arguments::One([Argument::Value(value)])
        }
        Access::CompareExchange {
            expected,
            replacement,
            ..
        } => Arguments::Two([Argument::Value(expected), Argument::Value(replacement)]),
    }
}
