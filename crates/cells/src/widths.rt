//! A law of all events on cells, by the definitions only.

ghost use Rattle.cells.specs.Widths.{EventsFit};

/// Law: an event leaves each value within its cell's width, and its reply fits the cell.
pub fn events_fit()
    ensures { EventsFit }
{}
