//! The line of a script that isn't refused.

ghost use Rattle.std.specs.Prelude.{◌≡◌, ◌+◌, ◌*◌, ◌≤◌, ◌++◌, length, OnOk, All, string_bytes};
ghost use Rattle.sab_plan.specs.declared.plan.TheConstants.Plan.{MAX_AGENTS};
ghost use Rattle.sab_plan.specs.Script.{ScriptParts};
ghost use Rattle.sab_reader.specs.Check.Text.{count_calls, ok_text};

use crate::script::Setup;
use sab_plan::Script;
use std::alloc::AllocError;
use std::fmt;

/// A number and what it counts.
#[derive(Clone, Copy)]
struct Plural(usize, &'static str);

impl fmt::Display for Plural {
    ghost use Rattle.std.specs.Prelude.{Some};
    ghost use Rattle.sab_reader.specs.Check.Text.{plural};

    ghost output = { λ p. Some (plural p.0 p.1.now) };

    fn fmt<W: fmt::Write>(&self, f: &mut fmt::Formatter<W>) -> fmt::Result {
        let (count, word) = (self.0, self.1);
        write!(f, "{count} {word}")?;
        f.write_str(if count == 1 { "" } else { "s" })
    }
}

/// How many calls agents have.
#[tactic(auto, using(crate::proofs::OfCheck::Counts::few_calls, crate::proofs::OfCheck::Counts::calls_from, crate::proofs::OfCheck::Counts::calls_none))]
fn call_count(scripts: &[Script]) -> usize
    requires few { length scripts.now ≤ MAX_AGENTS }
    requires short { All (λ (s : ScriptParts). length s.calls ≤ 1000) scripts.now }
    ensures { result ≡ count_calls scripts.now }
{
    let mut count = 0;
    for script in scripts {
        count += script.calls.len();
    }
    count
}

/// Appends the line: what a setup has.
pub(crate) fn push_ok(text: &mut String, setup: &Setup) -> Result<(), AllocError>
    ensures { OnOk result (string_bytes text.new ≡ string_bytes text.old ++ ok_text setup.now) }
{
    let plan = setup.plan();
    let blocks = Plural(plan.block_lens().len(), "block");
    let views = Plural(setup.views().len(), "view");
    let agents = Plural(plan.scripts().len(), "agent");
    let calls = Plural(call_count(plan.scripts()), "call");
    let moves = Plural(setup.schedule().len(), "move");
    write!(text, "ok: {blocks}, {views}, {agents}, {calls}, {moves}\n")
}
