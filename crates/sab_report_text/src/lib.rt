//! Writes a report: as plain text, explained in words, and as lines of JSON.
#![tactic(auto)]

pub mod json_lines;
pub mod text;
pub mod words;
