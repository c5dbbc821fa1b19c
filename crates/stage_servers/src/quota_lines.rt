//! The quotas of a manifest that a server's counters have used.

use cell_assignments::CellAssignment;
use declarations::ArrayDeclaration;
use printing::TextBuffer;

// The quota of a cell, if a manifest's array has one.
fn quota_of(arrays: &[ArrayDeclaration], cell: &CellAssignment<'_>) -> Option<u64> {
    for array in arrays {
        if array.name() == cell.array() && cell.index() < array.length() {
            return array.quota();
        }
    }
    None
}

/// Adds a line for each cell of an array with a quota: how many takes the server at an operator's
/// port has counted, of how many that it grants.
// open: what the lines are: rows.
pub fn push_quotas(
    text: &mut TextBuffer,
    port: u16,
    arrays: &[ArrayDeclaration],
    cells: &[CellAssignment<'_>],
) {
    for cell in cells {
        if let Some(quota) = quota_of(arrays, cell) {
            let value = cell.value();
            let end = if value < quota { "\n" } else { ": used up\n" };
            text.push_number("server at ", port as u64, ": ");
            text.push(cell.array());
            text.push_number("[", cell.index() as u64, "] ");
            text.push_number("", value, " of ");
            text.push_number("", quota, end);
        }
    }
}
