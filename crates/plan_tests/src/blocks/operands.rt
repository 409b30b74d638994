//! Numbers and BigInts, and the raw elements between them.

use crate::values::shows;
use sab_block::{Kind, Operand, Thrown, from_raw, to_raw};
use std::alloc::{AllocError, Global};
use std::test::Fail;
use test_helpers::{expect, expect_of, operand};

/// Numbers, and whether each is a safe integer.
const NUMBERS: [(i64, bool); 4] = [
    (9_007_199_254_740_991, true),
    (9_007_199_254_740_992, false),
    (-9_007_199_254_740_991, true),
    (-9_007_199_254_740_992, false),
];

/// Whether a Number can be had exactly if it is safe, and is itself then.
fn is_number(v: i64, safe: bool) -> bool {
    match Operand::number(v) {
        Some(operand) => safe && operand.whole() == i128::from(v),
        None => !safe,
    }
}

#[test]
fn a_number_is_a_safe_integer(rt: HostRuntime) -> Result<(), Fail> {
    for &(v, safe) in &NUMBERS {
        expect_of(is_number(v, safe), &v)?;
    }
    Ok(())
}

/// Whether each is a BigInt, its whole number, and what it shows.
const SHOWN: [(bool, i128, &str); 6] = [
    (false, -1, "Operand { big: false, whole: -1 }"),
    (true, -1, "Operand { big: true, whole: -1 }"),
    (false, -5, "Operand { big: false, whole: -5 }"),
    (true, -5, "Operand { big: true, whole: -5 }"),
    (
        true,
        i128::MIN,
        "Operand { big: true, whole: -170141183460469231731687303715884105728 }",
    ),
    (
        true,
        i128::MAX,
        "Operand { big: true, whole: 170141183460469231731687303715884105727 }",
    ),
];

/// Whether an operand is a BigInt or not as it was made, has its whole number, and shows this text.
fn is_shown(alloc: Global, big: bool, whole: i128, text: &str) -> Result<bool, AllocError> {
    match operand(big, whole) {
        Some(operand) => {
            let has_parts = operand.is_big() == big && operand.whole() == whole;
            Ok(has_parts && shows(alloc, &operand, text)?)
        }
        None => Ok(false),
    }
}

#[test]
fn an_operand_has_its_parts_and_shows_its_whole_number(rt: HostRuntime) -> Result<(), Fail> {
    for &(big, whole, text) in &SHOWN {
        expect(is_shown(rt.alloc(), big, whole, text)?, text)?;
    }
    Ok(())
}

/// A kind, whether an operand is a BigInt, its whole number, its raw element, and whether that is read as the operand.
const RAW: [(Kind, bool, i128, Result<u64, Thrown>, bool); 8] = [
    (Kind::Uint8, false, 300, Ok(44), false),
    (Kind::Int32, false, -1, Ok(4_294_967_295), true),
    (Kind::BigInt64, true, i128::MIN, Ok(0), false),
    (Kind::Int8, true, 1, Err(Thrown::TypeError), false),
    (Kind::Int8, false, -128, Ok(128), true),
    (Kind::Uint8, false, 128, Ok(128), true),
    (Kind::BigInt64, true, -1, Ok(u64::MAX), true),
    (
        Kind::BigUint64,
        true,
        18_446_744_073_709_551_615,
        Ok(u64::MAX),
        true,
    ),
];

/// Whether an operand has this raw element, or this is thrown, and whether the raw element is read as the operand.
fn is_wrapped(kind: Kind, operand: Operand, raw: Result<u64, Thrown>, is_read: bool) -> bool {
    if !kind.is_atomic() {
        return false;
    }
    match to_raw(kind, operand) {
        Ok(written) => raw == Ok(written) && is_read == (from_raw(kind, written) == operand),
        Err(thrown) => raw == Err(thrown) && !is_read,
    }
}

#[test]
fn an_operand_is_wrapped_and_read_by_the_sign_of_its_kind(rt: HostRuntime) -> Result<(), Fail> {
    for &(kind, big, whole, raw, is_read) in &RAW {
        let is_right = match operand(big, whole) {
            Some(operand) => is_wrapped(kind, operand, raw, is_read),
            None => false,
        };
        expect_of(is_right, &whole)?;
    }
    Ok(())
}
