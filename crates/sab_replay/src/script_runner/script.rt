//! Scripts as bytes.

ghost use Rattle.std.specs.Prelude.{IfOk, IfErr};
ghost use Rattle.sab_replay.specs.ScriptRunner.Replay.{IsScriptOf, IsRefused};

use crate::faults::ToolFault;
use sab_reader::script::{Setup, read_script};
use std::alloc::Global;

/// The setup that a script spells.
#[tactic(auto, using(crate::proofs::OfScriptRunner::ReplaySteps::refused_script))]
pub fn setup_of(alloc: Global, script: &[u8]) -> Result<Setup, ToolFault>
    ensures ok { IfOk result (IsScriptOf script.now) }
    ensures err { IfErr result (IsRefused script.now) }
{
    match read_script(alloc, script) {
        Ok(setup) => Ok(setup),
        Err(refusal) => Err(ToolFault::from(refusal)),
    }
}
