//! Blocks, from their tokens.

ghost use Rattle.std.specs.Prelude.{IfOk};
ghost use Rattle.sab_reader.specs.Script.Blocks.{SpellsLen, SpellsLens};
ghost use Rattle.sab_reader.specs.Script.Plain.{HoldsTree};

use crate::script::form::Form;
use crate::script::plain::lists::{Miss, Scanner, scan_items};
use crate::script::plain::numbers::scan_position;
use json::Element;
use sab_plan::Plan;
use std::alloc::Global;

/// The length of a block.
fn scan_len(element: &Element<'_, '_>) -> Result<u32, Miss>
    ensures { IfOk result (λ len. HoldsTree 0 (λ d. SpellsLen d len) element.now) }
{
    match scan_position(Plan::MAX_BLOCK_LEN + 1, element) {
        Some(len) => Ok(len),
        None => Err(Miss::NotPlain),
    }
}

/// Reads the length of a block.
#[derive(Clone, Copy)]
struct LenScanner;

impl Scanner for LenScanner {
    type Item = u32;

    ghost nests = { λ _. 0 };

    ghost Spells = { λ _. SpellsLen };

    fn scan(&self, element: &Element<'_, '_>) -> Result<u32, Miss> {
        scan_len(element)
    }
}

/// The lengths of the blocks, in order.
pub(crate) fn scan_lens(
    alloc: Global,
    form: Form,
    element: &Element<'_, '_>,
) -> Result<Vec<u32>, Miss>
    ensures { IfOk result (λ lens. HoldsTree 1 (λ d. SpellsLens form d lens.items) element.now) }
{
    match form {
        Form::Bytes => {
            let mut lens = Vec::with_capacity(alloc, 1)?;
            lens.push_reserved(scan_len(element)?);
            Ok(lens)
        }
        Form::Blocks => {
            let lens = scan_items(alloc, &LenScanner, Plan::MAX_BLOCKS, element)?;
            if lens.is_empty() {
                return Err(Miss::NotPlain);
            }
            Ok(lens)
        }
    }
}
