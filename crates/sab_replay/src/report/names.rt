//! The names of a setup's views.

ghost use Rattle.std.specs.Prelude.{◌≡◌, ◌≤◌, length, All, IfOk};
ghost use Rattle.sab_reader.specs.Script.Views.{view_names};

use sab_reader::script::Setup;
use sab_report_text::words::Name;
use std::alloc::{AllocError, Global};

/// The names of a setup's views, in order.
pub(crate) fn names_of(alloc: Global, setup: &Setup) -> Result<Vec<Name>, AllocError>
    requires { All (λ name. length name ≤ Name.MAX_LEN) (view_names setup.now.views) }
    ensures { IfOk result (λ names. names.items ≡ view_names setup.now.views) }
{
    let views = setup.views();
    let mut names = Vec::with_capacity(alloc, views.len())?;
    for name in views.keys() {
        names.push_reserved(Name::new(name.as_bytes()));
    }
    Ok(names)
}
