//! The names of views and of kinds.

ghost use Rattle.std.specs.Prelude.{◌≡◌, ℕ, IfErr, ◌↔◌, ◌<◌, ◌≤◌, IsTrue};
ghost use Rattle.sab_block.specs.declared.kind.Kind.{Kind as Kinds};
ghost use Rattle.sab_block.specs.Kind.{kind_name};
ghost use Rattle.sab_refusal.specs.Reason.{fault_of};
ghost use Rattle.sab_reader.specs.Script.Reading.{Finds};
ghost use Rattle.sab_reader.specs.Script.Views.{IsName};
ghost use Rattle.sab_refusal.specs.declared.member.Member.TheVariants as M;
ghost use Rattle.serde_json.specs.Data.{string};
ghost use Rattle.sab_reader.specs.Script.Truth.{IsTrueWhere};

use crate::script::near::near_kind;
use sab_block::Kind;
use sab_refusal::{Excerpt, Located, Location, ReadFault, Reason};

/// A refusal of a name that no kind has; it asks for the kind whose name is like this one, if there is one.
fn no_kind(at: Location, name: &str) -> Located
    requires { (k : Kinds) → name.now ≡ kind_name k → ⊥ }
    ensures fault { fault_of result.why ≡ ReadFault.BadView }
    ensures place { result.at ≡ at }
    ensures reported { IsTrueWhere at (string name.now)
        (λ root. (i : ℕ) × (at ≡ Location.Part M.Views i M.Kind)) result }
{
    let reported = Excerpt::of(name);
    let why = match near_kind(name) {
        Some(kind) => Reason::NearKind(reported, kind),
        None => Reason::NoKind(reported),
    };
    Located { at, why }
}

/// The kind of a name.
pub(crate) fn kind(at: Location, name: &str) -> Result<Kind, Located>
    ensures reads { Finds (λ k. k) (λ k. name.now ≡ kind_name k) result }
    ensures fault { IfErr result (λ e. fault_of e.why ≡ ReadFault.BadView) }
    ensures place { IfErr result (λ e. e.at ≡ at) }
    ensures reported { IfErr result (IsTrueWhere at (string name.now)
        (λ root. (i : ℕ) × (at ≡ Location.Part M.Views i M.Kind))) }
{
    match name {
        "Int8" => Ok(Kind::Int8),
        "Uint8" => Ok(Kind::Uint8),
        "Uint8Clamped" => Ok(Kind::Uint8Clamped),
        "Int16" => Ok(Kind::Int16),
        "Uint16" => Ok(Kind::Uint16),
        "Int32" => Ok(Kind::Int32),
        "Uint32" => Ok(Kind::Uint32),
        "Float32" => Ok(Kind::Float32),
        "Float64" => Ok(Kind::Float64),
        "BigInt64" => Ok(Kind::BigInt64),
        "BigUint64" => Ok(Kind::BigUint64),
        _ => Err(no_kind(at, name)),
    }
}

/// How many letters a view's name can have.
pub(crate) const MAX_NAME: usize = 32;

// The clauses cite the constant: so its number is held here.
const _: () = prove!(MAX_NAME == 32);

/// Whether a view can have the name.
pub fn is_name(name: &str) -> bool
    ensures { IsTrue result ↔ IsName name.now }
{
    let bytes = name.as_bytes();
    !bytes.is_empty()
        && bytes.len() <= MAX_NAME
        && bytes
            .iter()
            .all(|b| b.is_ascii_alphanumeric() || *b == b'_')
}
