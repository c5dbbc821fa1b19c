//! The interface by which a reply waits until what it depends on is stored.

ghost use Rattle.std.specs.Prelude.{◌≡◌, true, IfNone, IfSome};

use cells::CellSteps;

/// What a store has to hold before replies that depend on counters may be sent.
pub trait Cover<C: CellSteps> {
    ghost use Rattle.std.specs.Prelude.{Bool, ℕ};

    /// Evidence that what a pass did is covered.
    type Receipt: Drop;

    /// The mark was made when the pass was this.
    ghost marks: { Self → ℕ → C.Pass → Type 0 };

    /// The receipt shows that all is covered that the pass did from the one to the other.
    ghost covers: { Self → Self.Receipt → C.Pass → C.Pass → Type 0 };

    /// Whether a reply may be withheld.
    ghost withholds: { Self → Bool };

    /// Marks the beginning of a request, before its runs. What the pass did earlier is no longer
    /// waited for.
    fn begin(&self, pass: &mut C::Pass) -> u64
        ensures same { pass.new ≡ pass.old }
        ensures marks { marks self.now result pass.new };

    /// Waits until all that the pass did since the mark is covered. Returns `None` if that fails or
    /// takes too long; then the reply has to be withheld.
    fn settle(&self, cells: &C, pass: &mut C::Pass, mark: u64) -> Option<Self::Receipt>
        requires { C.belongs cells.now pass.old }
        ensures same { pass.new ≡ pass.old }
        ensures covered { (before : C.Pass) → marks self.now mark before
            → IfSome result (λ receipt. covers self.now receipt before pass.new) }
        ensures none { IfNone result (withholds self.now ≡ true) };
}
