//! Scripts, with their trees beside what they spell.

ghost use Rattle.std.specs.Prelude.{◌≤◌, IfOk, IfErr};
ghost use Rattle.serde_json.specs.Data.{depth};
ghost use Rattle.serde_json.specs.Read.{max_depth};
ghost use Rattle.serde_json.specs.View.{view};
ghost use Rattle.sab_replay.specs.ScriptRunner.Replay.{IsRefused};
ghost use Rattle.sab_replay.specs.KeptScript.Keeping.{IsParsed};

use crate::faults::ToolFault;
use sab_reader::script::{Setup, read_setup, read_tree};
use serde_json::Value;
use std::alloc::Global;

/// The tree of a script, and the setup that it spells.
#[tactic(auto, using(crate::proofs::OfKeptScript::KeptRuns::unread_script, crate::proofs::OfKeptScript::KeptRuns::refused_tree))]
pub(crate) fn parse_script(alloc: Global, script: &[u8]) -> Result<(Value, Setup), ToolFault>
    ensures parsed { IfOk result (λ p. IsParsed script.now (view p.0) p.1) }
    ensures nests { IfOk result (λ p. depth (view p.0) ≤ max_depth) }
    ensures err { IfErr result (IsRefused script.now) }
{
    let tree = read_tree(alloc, script)?;
    let setup = read_setup(alloc, &tree)?;
    Ok((tree, setup))
}
