//! Scripts that stand for a run with ordinary accesses.

ghost use Rattle.std.specs.Prelude.{◌≡◌};
ghost use Rattle.std.specs.List.{list_any};
ghost use Rattle.sab_replay.specs.Report.Ordinary.{is_ordinary_name};

use sab_report_text::words::Name;

/// How the names begin of the views by which a script has ordinary writes.
const OF_WRITES: &str = "ordinary_";

/// How the names begin of the views by which a script has what was written before its run.
const OF_INIT: &str = "init_";

/// Whether one of these names of views says that the script stands for a run with ordinary accesses.
pub(crate) fn has_ordinary(names: &[Name]) -> bool
    ensures { result ≡ list_any is_ordinary_name names.now }
{
    names.iter().any(|name| is_ordinary(name))
}

/// Whether this name says so.
fn is_ordinary(name: &Name) -> bool
    ensures { result ≡ is_ordinary_name name.now }
{
    let name = name.bytes();
    name.starts_with(OF_WRITES.as_bytes()) || name.starts_with(OF_INIT.as_bytes())
}
