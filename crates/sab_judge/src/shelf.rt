//! Shelves: in which cells of a block and a size class accesses begin.

ghost use Rattle.std.specs.Prelude.{◌+◌, ◌<◌, ◌^◌, IfOk};
ghost use Rattle.sab_judge.specs.Cell.{AreKept, BeginsIn};
ghost use Rattle.sab_judge.specs.Shelf.{AreRising, AreShelved, IsCountBelow, IsListedToo};

use crate::cell::{Cell, Cells};
use crate::event::Event;
use std::alloc::{AllocError, Global};
use std::collections::HashMap;

/// For each block and size class the indices of the cells in which accesses begin, in order.
pub(crate) type Shelves = HashMap<(u32, u32), Vec<u64>>;

/// Lists the cell in which the access of the `j`-th event begins, which is the next.
pub(crate) fn shelve(
    alloc: Global,
    shelves: &mut Shelves,
    cells: &Cells,
    trace: &[Event],
    j: usize,
    cell: Cell,
) -> Result<(), AllocError>
    requires begins { BeginsIn trace.now cell j }
    requires few { cell.class < 32 }
    requires small { cell.index < 2 ^ 40 }
    requires cells { AreKept trace.now j cells.now }
    requires shelves { AreShelved trace.now j shelves.old }
    ensures { IfOk result (λ _. AreShelved trace.now (j + 1) shelves.new) }
{
    match cells.get(&cell.key()) {
        Some(list) if !list.is_empty() => Ok(()),
        _ => put(alloc, shelves, trace, j, cell),
    }
}

/// Puts the cell in which the access of the `j`-th event begins on its shelf.
fn put(
    alloc: Global,
    shelves: &mut Shelves,
    trace: &[Event],
    j: usize,
    cell: Cell,
) -> Result<(), AllocError>
    requires begins { BeginsIn trace.now cell j }
    requires shelves { AreShelved trace.now j shelves.old }
    ensures { IfOk result (λ _. AreShelved trace.now (j + 1) shelves.new) }
{
    let key = (cell.block, cell.class);
    let mut shelf = shelves.remove(&key).unwrap_or(Vec::new(alloc));
    put_in_order(&mut shelf, cell.index)?;
    shelves.insert(key, shelf)?;
    Ok(())
}

/// Puts an index among those of a shelf, if it isn't there.
fn put_in_order(shelf: &mut Vec<u64>, index: u64) -> Result<(), AllocError>
    requires { AreRising shelf.old.items }
    ensures { IfOk result (λ _. IsListedToo shelf.old.items shelf.new.items index) }
{
    if let Err(k) = shelf.binary_search(&index) {
        shelf.insert(k, index)?;
    }
    Ok(())
}

/// How many indices of a shelf are below one.
pub(crate) fn count_below(shelf: &[u64], index: u64) -> usize
    requires { AreRising shelf.now }
    ensures { IsCountBelow shelf.now index result }
{
    shelf.partition_point(|other| *other < index)
}
