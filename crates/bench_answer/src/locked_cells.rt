//! Counters that several threads share: the cells of one thread, under one lock. So an operation
//! waits for those of other threads. No contract can name what a lock holds. It says only which
//! event an operation is, and that the reply fits the cell.

ghost use Rattle.std.specs.Prelude.{◌≡◌, IfErr};
ghost use Rattle.cells.specs.Events.{CanReply};

use cells::{CellNo, CellOp, CellSteps, CellsFault, PlainCells, PlainPass};
use std::alloc::Global;
use std::sync::{Mutex, Wait};

/// Cells under one lock, with the handle by which their users may wait for it. Every pass belongs
/// to them.
#[derive(Drop)]
pub struct LockedCells<R: Wait + Drop> {
    values: Mutex<PlainPass>,
    rt: R,
}

/// A thread's right to act on locked cells. It keeps nothing.
#[derive(Clone, Copy)]
pub struct LockedPass;

impl<R: Wait + Drop> LockedCells<R> {
    /// Cells that are all 0. Returns N3 if an allocation fails.
    pub fn new(alloc: Global, rt: R) -> Result<LockedCells<R>, CellsFault>
        ensures { IfErr result (λ e. e ≡ CellsFault.Memory) }
    {
        let (_, values) = PlainCells::new(alloc)?;
        Ok(LockedCells {
            values: Mutex::new(values),
            rt,
        })
    }

    /// A pass to these cells. Any number of passes may exist.
    pub fn pass(&self) -> LockedPass {
        LockedPass
    }
}

impl<R: Wait + Drop> CellSteps for LockedCells<R> {
    type Pass = LockedPass;

    ghost belongs = { λ _ _. Unit {0} };

    ghost grew = { λ _ e _. CanReply e.cell e.op e.reply };

    /// Waits until no other thread acts on the cells.
    fn act(&self, _pass: &mut LockedPass, cell: CellNo, op: CellOp) -> u64 {
        let mut values = self.values.lock(&self.rt);
        PlainCells.act(&mut values, cell, op)
    }
}
