//! Makes the cells and their passes: one seat (a ghost token), which knows the accounts of all
//! passes, is split into a seat for each.

ghost use Rattle.std.specs.Prelude.{◌≡◌, ◌+◌, ◌<◌, ◌≤◌, ◌∷◌, [], All, length, IfOk, IfErr, OnOk};
ghost use Rattle.cells.specs.Events.{AreCells, AreZeros};
ghost use Rattle.shared_cells.specs.Rule.{account, new_accounts};
ghost use Rattle.shared_cells.specs.Passes.{IsNewPass};
ghost use Rattle.shared_cells.specs.Words.{AreWordsOf};

use crate::pass::SharedPass;
use crate::rule::{CutFirst, OneHistory, Opening, View};
use crate::shared::SharedCells;
use crate::shared_fault::SharedFault;
use crate::word::to_word;
use atomic_table::{Seat, Shared, Table};
use cells::CellNo;
use std::alloc::{AllocError, Global};
use std::snapshot::Snapshot;

impl SharedCells {
    /// Cells that are all 0, and 1 to 65 passes to them. Returns S1 if an allocation fails.
    // open: whether an allocation fails (S1).
    pub fn new(alloc: Global, passes: usize) -> Result<(SharedCells, Vec<SharedPass>), SharedFault>
        requires { (0 < passes) × (passes ≤ 65) }
        ensures opening { IfOk result (λ made. AreZeros 8192 made.0.opening) }
        ensures many { IfOk result (λ made. made.0.passes ≡ passes) }
        ensures all { IfOk result (λ made. length made.1.items ≡ passes) }
        ensures each { IfOk result (λ made. All (IsNewPass made.0.table) made.1.items) }
        ensures memory { IfErr result (λ e. e ≡ SharedFault.Memory) }
    {
        let values = zeros(alloc, CellNo::COUNT as usize)?;
        SharedCells::opened(alloc, &values, passes)
    }

    /// Cells with these values, and 1 to 65 passes to them. Returns S1 if an allocation fails.
    // open: whether an allocation fails (S1).
    pub fn opened(
        alloc: Global,
        values: &Vec<u64>,
        passes: usize,
    ) -> Result<(SharedCells, Vec<SharedPass>), SharedFault>
        requires cells { AreCells values.now.items }
        requires passes { (0 < passes) × (passes ≤ 65) }
        ensures opening { IfOk result (λ made. made.0.opening ≡ values.now.items) }
        ensures many { IfOk result (λ made. made.0.passes ≡ passes) }
        ensures all { IfOk result (λ made. length made.1.items ≡ passes) }
        ensures each { IfOk result (λ made. All (IsNewPass made.0.table) made.1.items) }
        ensures memory { IfErr result (λ e. e ≡ SharedFault.Memory) }
    {
        let words = words_of(alloc, values)?;
        let opening = Opening {
            passes,
            values: Snapshot::of(values),
        };
        let (table, mut seat) = Table::of_words(alloc, words.as_slice(), &opening)?;
        let mut made = cut_passes(alloc, &table.shared, &mut seat, passes - 1)?;
        made.push(SharedPass::new(seat))?;
        Ok((SharedCells { table }, made))
    }
}

// `count` zeros.
fn zeros(alloc: Global, count: usize) -> Result<Vec<u64>, AllocError>
    ensures { IfOk result (λ v. AreZeros count v.items) }
{
    Vec::from_elem(alloc, 0, count)
}

// The words of cells with these values.
fn words_of(alloc: Global, values: &[u64]) -> Result<Vec<u64>, AllocError>
    requires { AreCells values.now }
    ensures { IfOk result (λ v. AreWordsOf values.now v.items) }
{
    let mut words = Vec::with_capacity(alloc, values.len())?;
    for (cell, value) in values.iter().enumerate() {
        words.push(to_word(cell, *value))?;
    }
    Ok(words)
}

// `count` passes, split off a seat that keeps one more.
fn cut_passes(
    alloc: Global,
    words: &Shared<(), View, Opening, OneHistory>,
    seat: &mut Seat<(), View>,
    count: usize,
) -> Result<Vec<SharedPass>, SharedFault>
    requires seat { seat.old.table_id ≡ words.now.table_id }
    requires words { 0 < words.now.table_id.words }
    requires knows { seat.old.me ≡ (new_accounts 0 (count + 1), []) }
    ensures all { IfOk result (λ made. length made.items ≡ count) }
    ensures each { IfOk result (λ made. All (IsNewPass words.now.table_id) made.items) }
    ensures seat { OnOk result (seat.new.table_id ≡ seat.old.table_id) }
    ensures left { OnOk result (seat.new.me ≡ (account count [] ∷ [], [])) }
    ensures memory { IfErr result (λ e. e ≡ SharedFault.Memory) }
{
    let mut made = Vec::new(alloc);
    for _ in 0..count {
        let first = words.split_seat::<CutFirst>(seat);
        made.push(SharedPass::new(first))?;
    }
    Ok(made)
}
