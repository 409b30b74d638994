//! What the tests of calls share: what they expect, plans, and scripts with their reports.
#![tactic(auto)]

mod expecting;
mod plans;
mod scripts;

pub use expecting::{expect, expect_of};
pub use plans::{is_same, notify, number, operand, plan, steps, wait, whole};
pub use scripts::{
    SHARED_WORD, STORE_AND_LOAD, STORED_AND_LOADED, TWO_BLOCKS, empty, is_report, is_text, plan_of,
    replayed, report_of, report_with, setup_of,
};
