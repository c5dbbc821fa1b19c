//! Cells of one thread. The pass, a ghost token elsewhere, holds their values here, so an operation
//! changes the pass.

ghost use Rattle.std.specs.Prelude.{◌≡◌, ◌%◌, ◌<◌, slice_index, IfOk, IfErr};
ghost use Rattle.cells.specs.Events.{limit, after, reply_of, event, CanReply, IsEvent};
ghost use Rattle.cells.specs.Events.{AreCells, AreZeros};

use crate::cells_fault::CellsFault;
use crate::event::{CellNo, CellOp};
use crate::steps::CellSteps;
use std::alloc::{AllocError, Global};
use std::marker::Model;

/// Cells of one thread. Any pass can be used with them.
#[derive(Clone, Copy)]
pub struct PlainCells;

/// The values of all cells.
#[derive(Drop)]
pub struct PlainPass {
    values: Vec<u64>,
}

impl Model for PlainPass {
    ghost use Rattle.std.specs.Prelude.{List, ℕ};
    ghost use Rattle.cells.specs.Events.{AreCells};

    ghost Value = { List ℕ };

    ghost view = { λ p. p.values.items };

    ghost invariant = { λ p. AreCells p.values.items };
}

impl PlainCells {
    /// The cells, and a pass in which all values are 0. Returns N3 if an allocation fails.
    // open: whether an allocation fails (N3).
    pub fn new(alloc: Global) -> Result<(PlainCells, PlainPass), CellsFault>
        ensures opening { IfOk result (λ made. AreZeros 8192 made.1) }
        ensures memory { IfErr result (λ e. e ≡ CellsFault.Memory) }
    {
        let values = zeros(alloc, CellNo::COUNT as usize)?;
        Ok((PlainCells, PlainPass { values }))
    }
}

impl PlainPass {
    /// Law: the type's invariant.
    pub fn invariant_law(&self)
        ensures { AreCells self.now }
    {
        let _values = &self.values;
    }

    /// The value of a cell.
    pub fn value(&self, cell: CellNo) -> u64
        ensures value { result ≡ slice_index self.now cell.number }
        ensures fits { result < limit cell.number }
    {
        self.values[cell.index()]
    }

    // One operation on a cell.
    fn step(&mut self, cell: CellNo, op: CellOp) -> u64
        ensures grew { IsEvent self.old (event cell.number op result) self.new }
        ensures fits { CanReply cell.number op result }
    {
        let at = cell.index();
        let value = self.values[at];
        self.values[at] = value_after(at, value, op);
        reply(value, op)
    }
}

impl CellSteps for PlainCells {
    type Pass = PlainPass;

    ghost belongs = { λ _ _. Unit {0} };

    ghost grew = { IsEvent };

    fn act(&self, pass: &mut PlainPass, cell: CellNo, op: CellOp) -> u64 {
        pass.step(cell, op)
    }
}

// `count` zeros.
fn zeros(alloc: Global, count: usize) -> Result<Vec<u64>, AllocError>
    ensures { IfOk result (λ v. AreZeros count v.items) }
{
    Vec::from_elem(alloc, 0, count)
}

// The bits of a number within the cell's width.
fn cut(cell: usize, number: u64) -> u64
    ensures { result ≡ number % limit cell }
{
    if cell < CellNo::FIRST_NARROW as usize {
        number
    } else {
        number % (1 << 32)
    }
}

// The value of a cell after an operation.
fn value_after(cell: usize, value: u64, op: CellOp) -> u64
    requires { value < limit cell }
    ensures { result ≡ after (limit cell) value op }
{
    match op {
        CellOp::Load => value,
        CellOp::Store(new) => cut(cell, new),
        CellOp::Add(number) => cut(cell, value.wrapping_add(number)),
        CellOp::Or(bits) => value | cut(cell, bits),
        CellOp::And(bits) => value & cut(cell, bits),
        CellOp::Xor(bits) => value ^ cut(cell, bits),
        CellOp::Swap(new) => cut(cell, new),
        CellOp::CompareExchange(expected, new) => {
            if value == cut(cell, expected) {
                cut(cell, new)
            } else {
                value
            }
        }
    }
}

// The reply of a cell that had this value.
fn reply(value: u64, op: CellOp) -> u64
    ensures { result ≡ reply_of value op }
{
    match op {
        CellOp::Store(_) => 0,
        _ => value,
    }
}
