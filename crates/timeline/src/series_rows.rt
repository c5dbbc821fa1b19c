//! The rows that a series may include: those between two names, since rows are sorted by name.

ghost use Rattle.std.specs.Prelude.{◌≡◌, ◌++◌, IfOk, string_bytes};
ghost use Rattle.timeline.specs.Marks.{drawn_by};
ghost use Rattle.timeline.specs.SeriesRows as specs;

use crate::marks::Series;
use std::alloc::{AllocError, Global};

/// The names between which all rows of a series are: from the first one on, and before the second.
#[derive(Drop)]
pub(crate) struct SeriesNames {
    pub first: String,
    pub end: String,
}

/// The names between which all rows of a series are.
pub(crate) fn names_of(alloc: Global, drawn: Series<'_>) -> Result<SeriesNames, AllocError>
    ensures { IfOk result (specs.Encloses (drawn_by drawn.entry)) }
{
    let first = beginning(alloc, drawn, "\t")?;
    let end = beginning(alloc, drawn, "\n")?;
    Ok(SeriesNames { first, end })
}

// The texts of a series' names before the moment, and then another.
fn beginning(alloc: Global, drawn: Series<'_>, last: &str) -> Result<String, AllocError>
    ensures { IfOk result
        (λ text. string_bytes text ≡ specs.texts_of (drawn_by drawn.entry) ++ last.now) }
{
    let Series { what, app, version } = drawn;
    let mut text = format!(in alloc; "{what}\t{app}")?;
    if let Some(version) = version {
        text.push_str("\t")?;
        text.push_str(version)?;
    }
    text.push_str(last)?;
    Ok(text)
}
