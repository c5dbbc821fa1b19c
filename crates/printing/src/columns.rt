//! Columns of a table: texts, filled up with blanks.

ghost use Rattle.std.specs.Prelude.{◌≡◌, OnOk};
ghost use Rattle.printing.specs.Pushed.{Puts};
ghost use Rattle.printing.specs.Columns as specs;

use std::alloc::AllocError;

/// The width of a text, in characters.
pub fn width_of(text: &str) -> usize
    ensures { result ≡ specs.width_of text.now }
{
    text.chars().count()
}

/// Appends `count` blanks to a text.
// open: whether an allocation fails.
pub fn push_blanks(text: &mut String, count: usize) -> Result<(), AllocError>
    ensures { OnOk result (Puts text.old text.new (specs.blanks count)) }
{
    let mut left = count;
    while left > 0 {
        text.push_str(" ")?;
        left -= 1;
    }
    Ok(())
}

/// Appends a column: a text, the blanks that fill it up to a width, and two more.
// open: whether an allocation fails.
pub fn push_column(text: &mut String, width: usize, more: &str) -> Result<(), AllocError>
    ensures { OnOk result (Puts text.old text.new (specs.column width more.now)) }
{
    push_left(text, width, more)?;
    text.push_str("  ")
}

fn push_left(text: &mut String, width: usize, more: &str) -> Result<(), AllocError>
    ensures { OnOk result (Puts text.old text.new (specs.at_left width more.now)) }
{
    text.push_str(more)?;
    push_blanks(text, width.saturating_sub(width_of(more)))
}
