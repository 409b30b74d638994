//! Blocks.

ghost use Rattle.std.specs.Prelude.{◌≡◌, ◌≤◌, IfErr};
ghost use Rattle.serde_json.specs.View.{view};
ghost use Rattle.sab_reader.specs.Script.Reading.{Finds};
ghost use Rattle.sab_reader.specs.Script.Blocks.{SpellsLen, SpellsLens};
ghost use Rattle.sab_reader.specs.Script.Places.{lens_member};
ghost use Rattle.sab_reader.specs.Script.Truth.{IsTrueWhere, IsLenPlace};

use crate::script::elements::{Reader, read_each};
use crate::script::form::Form;
use crate::script::tree::{items, whole};
use sab_plan::Plan;
use sab_refusal::{Located, Location, Reason, Unit, Wanted};
use serde_json::Value;
use std::alloc::Global;

/// The length of a block.
fn read_len(at: Location, tree: &Value) -> Result<u32, Located>
    ensures found { Finds (λ len. len) (SpellsLen (view tree.now)) result }
    ensures reported { IfErr result (IsTrueWhere at (view tree.now) (λ root. IsLenPlace at)) }
{
    let len = whole(at, Wanted::Whole, tree)?;
    if len < 0 {
        let why = Reason::BelowZero(len);
        return Err(Located { at, why });
    }
    if len > i64::from(Plan::MAX_BLOCK_LEN) {
        let why = Reason::TooMany(Unit::Bytes, len as u64, u64::from(Plan::MAX_BLOCK_LEN));
        return Err(Located { at, why });
    }
    Ok(len as u32)
}

/// Reads the length of a block.
#[derive(Clone, Copy)]
struct LenReader;

impl Reader for LenReader {
    type Element = u32;

    ghost Spells = { λ _. SpellsLen };

    ghost Knows = { λ _ root at. IsLenPlace at };

    fn read(&self, at: Location, tree: &Value) -> Result<u32, Located> {
        read_len(at, tree)
    }
}

/// The lengths of the blocks, in order.
pub fn read_lens(alloc: Global, at: Location, form: Form, tree: &Value) -> Result<Vec<u32>, Located>
    ensures found { Finds (λ lens. lens.items) (SpellsLens form (view tree.now)) result }
    ensures reported { IfErr result (IsTrueWhere at (view tree.now) (λ root. at ≡ Location.Member (lens_member form))) }
{
    match form {
        Form::Bytes => {
            let mut lens = Vec::with_capacity(alloc, 1)?;
            lens.push_reserved(read_len(at, tree)?);
            Ok(lens)
        }
        Form::Blocks => {
            let trees = items(at, tree)?;
            if trees.is_empty() {
                let why = Reason::NoBlocks;
                return Err(Located { at, why });
            }
            read_each(alloc, at, &LenReader, Unit::Blocks, Plan::MAX_BLOCKS, trees)
        }
    }
}
