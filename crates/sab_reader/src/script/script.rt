//! Scripts as bytes.

ghost use Rattle.std.specs.Prelude.{◌≤◌, IfOk, IfErr};
ghost use Rattle.serde_json.specs.Data.{depth};
ghost use Rattle.serde_json.specs.Read.{max_depth};
ghost use Rattle.serde_json.specs.View.{view};
ghost use Rattle.sab_reader.specs.Script.Script.{ReadsAs, IsScriptOf, IsUnread, IsPlaced, IsRefusedBy, IsTrueRefusal};

use crate::script::plain::{Miss, plain_setup};
use crate::script::setup::{Setup, locate_setup};
use sab_refusal::Refusal;
use sab_refusal::syntax::place_of;
use serde_json::Value;
use std::alloc::{AllocError, Global};

/// The setup that a script spells; or where the script is refused, and why.
///
/// Other than for want of memory it is refused only where it isn't a JSON text, or one that spells no setup. A plain
/// script is read from its tokens; every other one, and each that is to be refused, is read from its tree.
pub fn read_script(alloc: Global, script: &[u8]) -> Result<Setup, Refusal>
    ensures ok { IfOk result (IsScriptOf script.now) }
    ensures err { IfErr result (IsRefusedBy script.now) }
    ensures reported { IfErr result (IsTrueRefusal script.now) }
{
    match plain_setup(alloc, script) {
        Ok(setup) => Ok(setup),
        Err(Miss::Memory) => Err(Refusal::Tree(AllocError.into())),
        Err(Miss::NotPlain) => tree_setup(alloc, script),
    }
}

/// The setup that a script spells, by its tree; or where the script is refused, and why.
#[tactic(auto, using(crate::proofs::OfScript::Scripts::unread, crate::proofs::OfScript::Scripts::unread_true, crate::proofs::OfScript::Scripts::refused_tree))]
fn tree_setup(alloc: Global, script: &[u8]) -> Result<Setup, Refusal>
    ensures ok { IfOk result (IsScriptOf script.now) }
    ensures err { IfErr result (IsRefusedBy script.now) }
    ensures reported { IfErr result (IsTrueRefusal script.now) }
{
    let tree = read_tree(alloc, script)?;
    match locate_setup(alloc, &tree) {
        Ok(setup) => Ok(setup),
        Err(refusal) => Err(Refusal::Tree(refusal)),
    }
}

/// The tree that serde_json reads of a script's bytes; or that they aren't a JSON text, and where.
///
/// Only for want of memory it is a refusal of the tree. No other function refuses a script that isn't a JSON text.
#[tactic(auto, using(crate::proofs::OfScript::Scripts::no_reading))]
pub fn read_tree(alloc: Global, script: &[u8]) -> Result<Value, Refusal>
    ensures ok { IfOk result (λ tree. ReadsAs script.now (view tree)) }
    ensures nests { IfOk result (λ tree. depth (view tree) ≤ max_depth) }
    ensures err { IfErr result (IsUnread script.now) }
    ensures place { IfErr result (IsPlaced script.now) }
{
    match Value::from_slice(alloc, script) {
        Ok(tree) => Ok(tree),
        Err(error) if error.is_memory() => Err(Refusal::Tree(AllocError.into())),
        Err(_) => Err(Refusal::NotJson(place_of(script))),
    }
}
