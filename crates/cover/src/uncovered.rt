//! Counters that end with their server.

use crate::cover::Cover;
use cells::CellSteps;

/// The cover of counters that no file keeps: each reply may be sent at once.
#[derive(Clone, Copy)]
pub struct Uncovered;

impl<C: CellSteps> Cover<C> for Uncovered {
    ghost use Rattle.std.specs.Prelude.{false};

    type Receipt = ();

    ghost marks = { λ _ _ _. Unit {0} };

    ghost covers = { λ _ _ _ _. Unit {0} };

    ghost withholds = { λ _. false };

    fn begin(&self, _pass: &mut C::Pass) -> u64 {
        0
    }

    fn settle(&self, _cells: &C, _pass: &mut C::Pass, _mark: u64) -> Option<()> {
        Some(())
    }
}
