//! Names that are like those of kinds.

ghost use Rattle.std.specs.Prelude.{◌≡◌, ◌++◌, ◌↔◌, codes, IsTrue, MatchOption};
ghost use Rattle.sab_block.specs.declared.kind.Kind.{Kind as Kinds};
ghost use Rattle.sab_block.specs.Kind.{kind_name};
ghost use Rattle.sab_reader.specs.Script.Views.{IsLike};

use sab_block::Kind;

/// The kinds, in the order of the standard's table.
const KINDS: [Kind; 11] = [
    Kind::Int8,
    Kind::Uint8,
    Kind::Uint8Clamped,
    Kind::Int16,
    Kind::Uint16,
    Kind::Int32,
    Kind::Uint32,
    Kind::Float32,
    Kind::Float64,
    Kind::BigInt64,
    Kind::BigUint64,
];

/// The name of a kind's constructor.
fn constructor(kind: Kind) -> &'static str
    ensures { result.now ≡ kind_name kind ++ codes "Array" }
{
    match kind {
        Kind::Int8 => "Int8Array",
        Kind::Uint8 => "Uint8Array",
        Kind::Uint8Clamped => "Uint8ClampedArray",
        Kind::Int16 => "Int16Array",
        Kind::Uint16 => "Uint16Array",
        Kind::Int32 => "Int32Array",
        Kind::Uint32 => "Uint32Array",
        Kind::Float32 => "Float32Array",
        Kind::Float64 => "Float64Array",
        Kind::BigInt64 => "BigInt64Array",
        Kind::BigUint64 => "BigUint64Array",
    }
}

/// Whether a name is like that of a kind.
fn is_like(name: &str, kind: Kind) -> bool
    ensures { IsTrue result ↔ IsLike name.now kind }
{
    name.eq_ignore_ascii_case(kind.name()) || name.eq_ignore_ascii_case(constructor(kind))
}

/// The kind whose name this one is like, if there is one.
pub(crate) fn near_kind(name: &str) -> Option<Kind>
    ensures { MatchOption result ((kind : Kinds) → IsLike name.now kind → ⊥) (IsLike name.now) }
{
    for kind in &KINDS {
        if is_like(name, *kind) {
            return Some(*kind);
        }
    }
    None
}
