//! The cells of a server's counters, as printed at its operator's port.

ghost use Rattle.std.specs.Prelude.{◌≡◌, IfOk, map};
ghost use Rattle.std.specs.Str.Lines.{lines};
ghost use Rattle.cell_assignments.specs.Assignments as specs;

use crate::assignment::CellAssignment;
use std::alloc::{AllocError, Global};

/// The cells in the lines of a text, each `NAME[INDEX] VALUE`; other lines are skipped.
pub fn read_assignments<'a>(
    alloc: Global,
    text: &'a str,
) -> Result<Vec<CellAssignment<'a>>, AllocError>
    ensures { IfOk result (λ v. v.items ≡ specs.assignments_in (lines text.now)) }
{
    let lines = lines_of(alloc, text)?;
    let cells = assignments_in(alloc, &lines)?;
    Ok(cells)
}

fn lines_of<'a>(alloc: Global, text: &'a str) -> Result<Vec<&'a str>, AllocError>
    ensures { IfOk result (λ v. map (λ line. line.now) v.items ≡ lines text.now) }
{
    text.lines().collect(alloc)
}

fn assignments_in<'a>(
    alloc: Global,
    lines: &[&'a str],
) -> Result<Vec<CellAssignment<'a>>, AllocError>
    ensures { IfOk result (λ v. v.items ≡ specs.assignments_in (map (λ line. line.now) lines.now)) }
{
    let mut cells = Vec::with_capacity(alloc, lines.len())?;
    let mut rest = lines;
    while let [line, more @ ..] = rest {
        if let Some(cell) = CellAssignment::listed(line) {
            cells.push(cell)?;
        }
        rest = more;
    }
    Ok(cells)
}
