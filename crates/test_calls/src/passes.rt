//! Counters that threads share: what passes read of one another's operations, and what two threads
//! leave.

ghost use Rattle.shared_cells.specs.Passes.{IsPassOf};

use crate::files::shown;
use cells::{CellNo, CellOp, CellSteps};
use shared_cells::{SharedCells, SharedFault, SharedPass};
use std::alloc::Global;
use std::test::Fail;
use std::thread::{Threads, join};

const WIDE: u16 = 0;

const NARROW: u16 = 4096;

/// Adds to a cell again and again.
fn add_often(cells: &SharedCells, pass: &mut SharedPass, cell: CellNo, by: u64, times: u64)
    requires { IsPassOf cells.now pass.old }
    ensures { IsPassOf cells.now pass.new }
{
    for _ in 0..times {
        cells.act(pass, cell, CellOp::Add(by));
    }
}

/// The work of each thread.
fn add_to_both(cells: &SharedCells, mut pass: SharedPass) -> SharedPass
    requires { IsPassOf cells.now pass }
    ensures { IsPassOf cells.now result }
{
    add_often(cells, &mut pass, CellNo::new(WIDE), 1, 1000);
    add_often(cells, &mut pass, CellNo::new(NARROW), 4294967295, 3);
    pass
}

/// The values of a 64-bit cell and of a 32-bit one that two threads leave.
fn two_threads<H: Threads + Sync>(
    rt: &H,
    alloc: Global,
) -> Result<Option<(u64, u64)>, SharedFault> {
    let (cells, mut passes) = SharedCells::new(alloc, 2)?;
    let shared = &cells;
    let (Some(first), Some(second)) = (passes.pop(), passes.pop()) else {
        return Ok(None);
    };
    let (first, second) = join(
        rt,
        move || -> SharedPass
            requires { IsPassOf shared.now first }
            ensures { IsPassOf shared.entry.now result }
        { add_to_both(shared, first) },
        move || -> SharedPass
            requires { IsPassOf shared.now second }
            ensures { IsPassOf shared.entry.now result }
        { add_to_both(shared, second) },
    );
    passes.push(first)?;
    passes.push(second)?;
    let closed = cells.close(passes)?;
    Ok(Some((
        closed.value(CellNo::new(WIDE)),
        closed.value(CellNo::new(NARROW)),
    )))
}

#[test]
fn threads_add_up(rt: HostRuntime) -> Result<(), Fail> {
    let left = two_threads(&rt, rt.alloc())?;
    shown(left == Some((2000, 4294967290)), "threads add up")
}

/// What seven operations of two passes return, in turn.
fn seven_replies(alloc: Global) -> Result<Option<[u64; 7]>, SharedFault> {
    let (cells, mut passes) = SharedCells::new(alloc, 2)?;
    let (Some(mut first), Some(mut second)) = (passes.pop(), passes.pop()) else {
        return Ok(None);
    };
    let (wide, narrow) = (CellNo::new(WIDE), CellNo::new(NARROW));
    Ok(Some([
        cells.act(&mut first, wide, CellOp::Store(7)),
        cells.act(&mut second, wide, CellOp::Load),
        cells.act(&mut first, narrow, CellOp::Add(4294967295)),
        cells.act(&mut second, narrow, CellOp::Add(2)),
        cells.act(&mut second, narrow, CellOp::Load),
        cells.act(&mut second, narrow, CellOp::CompareExchange(1, 9)),
        cells.act(&mut second, narrow, CellOp::Load),
    ]))
}

#[test]
fn passes_see_one_another(rt: HostRuntime) -> Result<(), Fail> {
    let replies = seven_replies(rt.alloc())?;
    let wanted = Some([0, 7, 0, 4294967295, 1, 1, 9]);
    shown(replies == wanted, "passes see one another")
}
