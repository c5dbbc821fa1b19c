//! The laws of quotas, by the definitions only. The functions do nothing.

ghost use Rattle.thread_laws.specs.Quotas.{ThreadsGrantQuotas, ThreadsKeepQuotas};

use cells::{arrays_lie_apart, arrays_preserved, events_fit};

/// Law: threads only load a quota's cell and add 1 to it, if no program of their rulesets has the
/// cell in an array without a quota. If the cell has 64 bits, and the additions are fewer than
/// 2^64, it is a counter. Then each quota is granted exactly, as the close of shared cells says
/// (`SharedCells::close`, `quotas`).
// open: that the additions are fewer than 2^64, its one premise on numbers.
pub fn threads_keep_quotas()
    ensures { ThreadsKeepQuotas }
{
    events_fit();
}

/// Law: if all rulesets know only the arrays of one directory, each cell of each array with a quota
/// is only counted. In a directory, arrays share no cell, and one with a quota has cells of 64
/// bits. If there are fewer than 2^64 additions, min(quota, additions) of them find the value below
/// the quota.
// open: that the additions are fewer than 2^64, its one premise on numbers.
pub fn threads_grant_quotas()
    ensures { ThreadsGrantQuotas }
{
    threads_keep_quotas();
    arrays_lie_apart();
    arrays_preserved();
}
