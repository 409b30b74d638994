//! Scripts of which one byte is changed.

use sab_replay::faults::ToolFault;
use sab_replay::script_runner::replay_bytes;
use std::alloc::{AllocError, Global};
use std::test::Fail;
use test_helpers::{SHARED_WORD, TWO_BLOCKS, expect};

/// Whether a text that is refused as a script can have this fault.
fn is_refusal(fault: ToolFault) -> bool {
    let number = fault.number();
    number == 3 || number == 20 || (10 <= number && number <= 16)
}

/// Whether a text is replayed to some report, or refused with nothing written.
fn is_read_or_refused(alloc: Global, script: &[u8]) -> bool {
    let mut text = Vec::new(alloc);
    match replay_bytes(alloc, script, &mut text) {
        Ok(()) => !text.is_empty(),
        Err(fault) => text.is_empty() && is_refusal(fault),
    }
}

/// Whether this holds of a script with any byte at a place.
fn holds_at(alloc: Global, script: &str, i: usize) -> Result<bool, AllocError> {
    let mut script = script.as_bytes().to_vec(alloc)?;
    for byte in 0..=u8::MAX {
        if let Some(place) = script.get_mut(i) {
            *place = byte;
        }
        if !is_read_or_refused(alloc, script.as_slice()) {
            return Ok(false);
        }
    }
    Ok(true)
}

#[test]
fn a_changed_byte_is_read_or_refused(rt: HostRuntime) -> Result<(), Fail> {
    for script in [SHARED_WORD, TWO_BLOCKS] {
        for i in 0..script.len() {
            expect(holds_at(rt.alloc(), script, i)?, script)?;
        }
    }
    Ok(())
}
