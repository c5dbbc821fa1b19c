//! What the workers want to be stored: for each 64-bit cell a number. They want a higher one once
//! they have reached the cell's mark, which lies below its ceiling: so it is mostly stored before a
//! reply has to wait for it.

use cells::CellNo;
use std::alloc::{AllocError, Global};
use std::sync::Wait;
use std::sync::atomic::{AtomicBool, AtomicU64, Ordering};
use std::thread::Parker;
use std::time::Duration;

/// The numbers that are wanted, the marks, whether the last commit failed, and the bell of the
/// store.
#[derive(Drop)]
pub(crate) struct Wanted {
    numbers: Vec<AtomicU64>,
    marks: Vec<AtomicU64>,
    is_failing: AtomicBool,
    bell: Parker,
}

impl Wanted {
    /// No number is wanted, and all marks are 0.
    pub(crate) fn new(alloc: Global) -> Result<Wanted, AllocError> {
        let numbers = zeros(alloc)?;
        let marks = zeros(alloc)?;
        Ok(Wanted {
            numbers,
            marks,
            is_failing: AtomicBool::new(false),
            bell: Parker::new(),
        })
    }

    /// Wants that a number is stored for a cell which isn't lower than this one.
    pub(crate) fn want(&self, cell: usize, number: u64) {
        if let Some(wanted) = self.numbers.get(cell) {
            let _before = wanted.fetch_max(number, Ordering::SeqCst);
        }
    }

    /// The greatest number that was wanted for a cell, if it has reached the mark; otherwise 0.
    pub(crate) fn number(&self, cell: usize) -> u64 {
        let wanted = loaded(&self.numbers, cell);
        if wanted < self.mark(cell) { 0 } else { wanted }
    }

    pub(crate) fn mark(&self, cell: usize) -> u64 {
        loaded(&self.marks, cell)
    }

    pub(crate) fn set_mark(&self, cell: usize, number: u64) {
        if let Some(mark) = self.marks.get(cell) {
            mark.store(number, Ordering::SeqCst);
        }
    }

    pub(crate) fn is_failing(&self) -> bool {
        self.is_failing.load(Ordering::SeqCst)
    }

    pub(crate) fn set_failing(&self, is_failing: bool) {
        self.is_failing.store(is_failing, Ordering::SeqCst);
    }

    pub(crate) fn ring(&self) {
        self.bell.unpark();
    }

    pub(crate) fn wait<H: Wait>(&self, rt: &H, most: Duration) {
        self.bell.park_timeout(rt, most);
    }
}

// A zero for each 64-bit cell.
fn zeros(alloc: Global) -> Result<Vec<AtomicU64>, AllocError> {
    let mut zeros = Vec::with_capacity(alloc, CellNo::FIRST_NARROW as usize)?;
    for _ in 0..CellNo::FIRST_NARROW {
        zeros.push(AtomicU64::new(0))?;
    }
    Ok(zeros)
}

// The number at a cell's place; 0 past the last.
fn loaded(numbers: &[AtomicU64], cell: usize) -> u64 {
    match numbers.get(cell) {
        Some(number) => number.load(Ordering::SeqCst),
        None => 0,
    }
}
