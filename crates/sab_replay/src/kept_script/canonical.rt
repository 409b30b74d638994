//! The one text of a tree.

ghost use Rattle.std.specs.Prelude.{◌≡◌, ◌≤◌, false, Some, IsUtf8, IfOk};
ghost use Rattle.serde_json.specs.Data.{depth};
ghost use Rattle.serde_json.specs.Read.{read, max_depth};
ghost use Rattle.serde_json.specs.View.{view};
ghost use Rattle.serde_json.specs.Written.{has_float};
ghost use Rattle.sab_replay.specs.KeptScript.Canonical.{canonical_text};

use serde_json::Value;
use std::alloc::{AllocError, Global};

/// The canonical text of a tree: without spaces, members by name, and with a line feed at its end.
#[tactic(auto, using(crate::proofs::OfKeptScript::LineFeed::read_line, crate::proofs::OfKeptScript::LineFeed::utf8_line))]
pub(crate) fn canonical_text(alloc: Global, tree: &Value) -> Result<Vec<u8>, AllocError>
    ensures text { IfOk result (λ text. has_float (view tree.now) ≡ false
        → text.items ≡ canonical_text (view tree.now)) }
    ensures utf8 { IfOk result (λ text. IsUtf8 text.items) }
    ensures reads_back { IfOk result (λ text. depth (view tree.now) ≤ max_depth
        → read text.items ≡ Some (view tree.now)) }
{
    let mut text = tree.to_vec(alloc)?;
    text.push(b'\n')?;
    Ok(text)
}
