//! How much work is left for the comparisons of a call.

ghost use Rattle.std.specs.Prelude.{◌≡◌, ◌+◌, true, false};

/// The number of tests, cells and tuples that may still be looked at, in all apps together. A
/// comparison that needs more isn't made.
#[derive(Drop)]
pub struct Work {
    left: usize,
}

/// For one call: a second or two of a processor.
const MOST_WORK: usize = 1_500_000_000;

impl Work {
    /// What a call may look at.
    pub fn of_call() -> Work
        ensures { result.left ≡ 1500000000 }
    {
        Work { left: MOST_WORK }
    }

    /// Takes this number from what is left, and returns whether there was as much.
    pub fn spend(&mut self, count: usize) -> bool
        ensures spent { result ≡ true → self.new.left + count ≡ self.old.left }
        ensures same { result ≡ false → self.new.left ≡ self.old.left }
    {
        if count > self.left {
            return false;
        }
        self.left -= count;
        true
    }
}
