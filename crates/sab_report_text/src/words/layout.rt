//! How the lines of an explained report are laid out.

use crate::text::Lines;
use crate::words::column::Column;

/// How the lines of an explained report are laid out.
#[derive(Clone, Copy)]
pub struct Layout {
    /// Which entries have a line.
    pub lines: Lines,
    /// Where the words begin.
    pub column: Column,
}
