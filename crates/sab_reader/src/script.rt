//! Reads scripts: from JSON that says what agents do to blocks of bytes, and in which order, to a setup.

mod agents;
mod blocks;
mod calls;
mod elements;
mod form;
mod misfit;
mod names;
mod near;
mod numbers;
mod operands;
mod plain;
mod schedule;
mod script;
mod setup;
mod tree;
mod view_entry;
mod view_spec;
mod views;

pub use blocks::read_lens;
pub use calls::read_call;
pub use form::Form;
pub use names::is_name;
pub use numbers::number_amiss;
pub use sab_refusal::{
    Counted, Excerpt, Located, Location, Member, Misfit, ReadFault, Reason, Refusal, Unit, Wanted,
};
pub use schedule::MAX_MOVES;
pub use script::{read_script, read_tree};
pub use setup::{Setup, locate_setup, read_setup};
pub use view_entry::read_views;
pub use view_spec::ViewSpec;
pub use views::Views;
