//! What each move of a schedule found and changed.
//!
//! An [`Explainer`] is a simulator that returns for each move its entry and the [`Fact`] of the entry.

mod before;
mod explainer;
mod notes;
mod sight;
mod standing;

pub use explainer::Explainer;
pub use sab_plan::{At, Explained, Fact, Found, Standing};
