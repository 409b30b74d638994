//! Why a script is refused.

ghost use Rattle.std.specs.Prelude.{IfOk};
ghost use Rattle.sab_cli.specs.Run.Explaining.{IsExplained, IsExplanation};

use crate::exit::Ending;
use crate::run::failure::Explanation;
use sab_reader::check::{Checked, check_script};
use sab_replay::faults::ToolFault;
use std::alloc::{AllocError, Global};

/// What a check says about a script that it refuses, which is a line; none about a script that it doesn't refuse.
pub fn explain_script(alloc: Global, script: &[u8]) -> Result<Option<String>, AllocError>
    ensures { IfOk result (IsExplained script.now) }
{
    match check_script(alloc, script)? {
        Checked::Accepted(_) => Ok(None),
        Checked::Refused(text) => Ok(Some(text)),
    }
}

/// What is reported besides the fault that a script's job ended with, if that is asked for or isn't.
pub(crate) fn explanation_of(
    alloc: Global,
    is_asked: bool,
    fault: ToolFault,
    script: &[u8],
) -> Explanation
    ensures { IsExplanation is_asked fault script.now result }
{
    if !is_asked || Ending::Failed(fault).status() != 1 {
        return Explanation::Absent;
    }
    match explain_script(alloc, script) {
        Ok(Some(text)) => Explanation::CheckText(text),
        Ok(None) => Explanation::Absent,
        Err(_) => Explanation::NoMemory,
    }
}
