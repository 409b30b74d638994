//! Views of a plan.

use sab_block::View;

/// A view on one of a plan's blocks.
#[derive(Clone, Copy, Debug, PartialEq, Eq)]
pub struct PlanView {
    /// The position of its block in the plan.
    pub block: u32,
    /// Where its elements lie in that block.
    pub view: View,
}
