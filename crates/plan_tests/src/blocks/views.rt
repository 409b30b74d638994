//! Views that are made or refused, and the places of their elements.

use sab_block::{Kind, Thrown, View};
use std::test::Fail;
use test_helpers::expect_of;

const RANGE: Result<u32, Thrown> = Err(Thrown::RangeError);

/// The kind, block length, offset and length of views, and how many elements each has if it can be made.
const VIEWS: [(Kind, u32, i64, Option<i64>, Result<u32, Thrown>); 11] = [
    (Kind::Int32, 8, 2, Some(1), RANGE),
    (Kind::Int32, 6, 0, None, RANGE),
    (Kind::Int32, 6, 0, Some(1), Ok(1)),
    (Kind::Int32, 8, 12, None, RANGE),
    (Kind::Int32, 8, 8, None, Ok(0)),
    (Kind::Int32, 8, 4, Some(2), RANGE),
    (Kind::Int32, 8, -4, None, RANGE),
    (Kind::Int32, 8, 0, Some(-1), RANGE),
    (Kind::Int32, 8, 0, Some(9_223_372_036_854_775_807), RANGE),
    (Kind::Int32, 8, 9_223_372_036_854_775_804, Some(1), RANGE),
    (Kind::BigInt64, 16, 8, None, Ok(1)),
];

/// Whether a view can be made as it is asked for and has so many elements, or this is thrown.
fn is_made(
    kind: Kind,
    block_len: u32,
    offset: i64,
    length: Option<i64>,
    want: Result<u32, Thrown>,
) -> bool {
    match View::new(kind, block_len, offset, length) {
        Ok(view) => {
            want == Ok(view.len())
                && view.is_empty() == (view.len() == 0)
                && view.kind() == kind
                && view.block_len() == block_len
                && i64::from(view.offset()) == offset
        }
        Err(thrown) => want == Err(thrown),
    }
}

#[test]
fn a_view_is_refused_unless_it_fits_its_block_and_is_as_it_was_made(
    rt: HostRuntime,
) -> Result<(), Fail> {
    for row in &VIEWS {
        let (kind, block_len, offset, length, want) = *row;
        expect_of(is_made(kind, block_len, offset, length, want), row)?;
    }
    Ok(())
}

/// The kind, block length and offset of a view, an index, and its place.
const PLACES: [(Kind, u32, i64, i64, Result<u32, Thrown>); 8] = [
    (Kind::Int32, 8, 0, -9_223_372_036_854_775_808, RANGE),
    (Kind::Int32, 8, 0, -1, RANGE),
    (Kind::Int32, 8, 0, 0, Ok(0)),
    (Kind::Int32, 8, 0, 1, Ok(4)),
    (Kind::Int32, 8, 0, 2, RANGE),
    (Kind::Int32, 8, 0, 9_223_372_036_854_775_807, RANGE),
    (Kind::BigInt64, 16, 8, 0, Ok(8)),
    (Kind::BigInt64, 16, 8, 1, RANGE),
];

/// Whether a view can be made, and an index has this place in it, or none.
fn is_place(
    kind: Kind,
    block_len: u32,
    offset: i64,
    index: i64,
    place: Result<u32, Thrown>,
) -> bool {
    match View::new(kind, block_len, offset, None) {
        Ok(view) => view.place(index) == place,
        Err(_) => false,
    }
}

#[test]
fn an_index_has_a_place_or_none(rt: HostRuntime) -> Result<(), Fail> {
    for row in &PLACES {
        let (kind, block_len, offset, index, place) = *row;
        expect_of(is_place(kind, block_len, offset, index, place), row)?;
    }
    Ok(())
}
