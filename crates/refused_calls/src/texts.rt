//! Texts that calls write, and arrays that they write them into.

use sab_replay::script_runner::write_report;
use sab_sim::Report;

/// How many bytes a text can have.
pub const ROOM: usize = 2_048;

/// Whether an array of which so many bytes are left begins with a text and was left as it was, all 0, behind it.
pub fn is_text(room: &[u8], left: usize, text: &str) -> bool {
    match room.strip_prefix(text.as_bytes()) {
        Some(behind) => behind.len() == left && are_all(behind, 0),
        None => false,
    }
}

/// Whether nothing was written into an array of which so many bytes are left.
pub fn is_unwritten(room: &[u8], left: usize) -> bool {
    is_text(room, left, "")
}

/// Whether all bytes are this one.
pub fn are_all(bytes: &[u8], wanted: u8) -> bool {
    for byte in bytes {
        if *byte != wanted {
            return false;
        }
    }
    true
}

/// Whether this is the text of a report.
pub fn is_report(report: &Report, text: &str) -> bool {
    let mut room = [0; ROOM];
    let mut rest = room.as_mut_slice();
    let is_written = write_report(report, &mut rest).is_ok();
    let left = rest.len();
    is_written && is_text(&room, left, text)
}
