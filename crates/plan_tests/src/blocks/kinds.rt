//! The kinds' table.

use sab_block::Kind;
use std::alloc::{AllocError, Global};
use std::test::Fail;
use test_helpers::expect;

const KINDS: [Kind; 11] = [
    Kind::Int8,
    Kind::Uint8,
    Kind::Uint8Clamped,
    Kind::Int16,
    Kind::Uint16,
    Kind::Int32,
    Kind::Uint32,
    Kind::Float32,
    Kind::Float64,
    Kind::BigInt64,
    Kind::BigUint64,
];

/// Of each kind its name and its size; whether it is signed, of BigInts, atomic, and waitable.
const TABLE: &str = "\
Int8 1 true false true false
Uint8 1 false false true false
Uint8Clamped 1 false false false false
Int16 2 true false true false
Uint16 2 false false true false
Int32 4 true false true true
Uint32 4 false false true false
Float32 4 false false false false
Float64 8 false false false false
BigInt64 8 true true true true
BigUint64 8 false true true false
";

/// The row of a kind.
fn row_of(alloc: Global, kind: Kind) -> Result<String, AllocError> {
    let (name, size) = (kind.name(), kind.size());
    let (is_signed, is_big) = (kind.is_signed(), kind.is_big());
    let (is_atomic, is_waitable) = (kind.is_atomic(), kind.is_waitable());
    format!(in alloc; "{name} {size} {is_signed} {is_big} {is_atomic} {is_waitable}\n")
}

#[test]
fn each_kind_has_its_row_of_the_table(rt: HostRuntime) -> Result<(), Fail> {
    let mut table = String::new(rt.alloc());
    for kind in &KINDS {
        let row = row_of(rt.alloc(), *kind)?;
        table.push_str(row.as_str())?;
    }
    expect(table.as_str() == TABLE, "another table")
}
