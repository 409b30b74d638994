//! Refusals of traces.

use crate::line_fault::LineFault;
use std::error::Error;
use std::fmt;

/// Why a trace isn't read, and at which line.
#[derive(Clone, Copy, Debug)]
pub struct Refusal {
    /// The line, counted from 1, at which reading stopped.
    pub line: u32,
    pub fault: LineFault,
}

impl fmt::Display for Refusal {
    ghost use Rattle.std.specs.Prelude.{Some};
    ghost use Rattle.sab_trace.specs.Refusal.{refusal_text};

    ghost output = { λ refusal. Some (refusal_text refusal) };

    fn fmt<W: fmt::Write>(&self, f: &mut fmt::Formatter<W>) -> fmt::Result {
        write!(f, "{}: line {}", self.fault, self.line)
    }
}

impl Error for Refusal {}
