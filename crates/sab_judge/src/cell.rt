//! Cells: in which bytes accesses of about one size begin.

ghost use Rattle.std.specs.Prelude.{◌≡◌, ◌*◌, ◌<◌, ◌^◌};
ghost use Rattle.sab_judge.specs.Cell.{class_of, key_of, IsIn};

use crate::access::Access;
use crate::latest::Latest;
use std::collections::HashMap;

/// How many size classes there are.
pub(crate) const CLASSES: u32 = 32;

/// The bytes of a block in which accesses of one size class begin: some of 2^k bytes, for class k.
///
/// Class k has the accesses of 2^k to 2^(k+1) - 1 bytes, and class 0 those of no byte too. So those of a class that
/// overlap another access begin in few cells.
#[derive(Clone, Copy)]
pub(crate) struct Cell {
    pub(crate) block: u32,
    pub(crate) class: u32,
    pub(crate) index: u64,
}

/// For each cell the last events, each of those that are alike.
pub(crate) type Cells = HashMap<(u32, u64), Vec<Latest>>;

/// The size class of accesses of so many bytes.
#[tactic(auto, using(crate::proofs::Cells::less_than_two))]
fn class_of(len: u32) -> u32
    ensures class { result ≡ class_of len }
    ensures few { result < CLASSES }
    ensures less { len < 2 * 2 ^ result }
{
    (u32::BITS - len.leading_zeros()).saturating_sub(1)
}

impl Cell {
    /// The cell in which an access begins.
    pub(crate) fn of(access: Access) -> Cell
        ensures is_in { IsIn result access }
        ensures few { result.class < CLASSES }
        ensures less { access.len < 2 * 2 ^ result.class }
        ensures small { result.index < 2 ^ 32 }
    {
        let class = class_of(access.len);
        Cell {
            block: access.place.block,
            class,
            index: access.start() >> class,
        }
    }

    /// What it is found by.
    pub(crate) fn key(self) -> (u32, u64)
        requires few { self.class < CLASSES }
        requires small { self.index < 2 ^ 40 }
        ensures { result ≡ key_of self }
    {
        (self.block, self.index * 32 + u64::from(self.class))
    }
}
