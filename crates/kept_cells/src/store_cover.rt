//! The cover of cells that a file keeps: a reply waits until each of its tickets is below a ceiling
//! of the file's store, or past its cell's limit.

ghost use Rattle.std.specs.Prelude.{◌≡◌, ◌<◌, ◌-◌, ◌^◌, true, IfNone, IfSome, drop, length};
ghost use Rattle.std.specs.Arc.{arc_value};
ghost use Rattle.std.specs.Option.{is_some};
ghost use Rattle.ceilings.specs.Seats.{IsAt};
ghost use Rattle.shared_cells.specs.Passes.{PassView};
ghost use Rattle.kept_cells.specs.Tickets.{AreCovered, IsMark, ShowsCovered};

use crate::kept::Kept;
use crate::kept_cells::KeptCells;
use crate::kept_pass::KeptPass;
use ceilings::Reader;
use cover::Cover;
use std::sync::Arc;
use std::thread;
use std::time::{Clock, Duration, Instant};

/// The most milliseconds for which a reply waits. It looks at the ceilings after each.
const MOST_MILLIS: u32 = 2000;

/// The cover of cells with the ceilings of a store. A reply waits for at most two seconds, and for
/// no time once commits fail. Of cells without a store each reply may be sent at once.
#[derive(Drop)]
pub struct StoreCover<'a, H> {
    clock: &'a H,
    kept: Option<Arc<Kept>>,
    /// How long a reply waits at most, but for two seconds.
    most: Duration,
}

impl<'a, H: Clock> StoreCover<'a, H> {
    /// The cover of cells with these ceilings, or without any. A reply waits for at most this time.
    // open: how long it waits: a test.
    pub fn of(clock: &'a H, kept: Option<Arc<Kept>>, most: Duration) -> StoreCover<'a, H>
        ensures { result.kept ≡ kept }
    {
        StoreCover { clock, kept, most }
    }

    // Waits until each ticket since the mark is covered.
    fn wait(&self, kept: &Kept, pass: &KeptPass, mark: u64) -> Option<Reader>
        ensures own { IfSome result (IsAt kept.now) }
        ensures mark { IfSome result (λ _. mark < 2 ^ 64 - 1) }
        ensures covered { IfSome result (λ r. AreCovered r.raised (drop mark pass.now.events)) }
    {
        let mut reader = kept.reader();
        if pass.is_covered(mark, kept, &mut reader) {
            return Some(reader);
        }
        pass.want(kept);
        let end = self.end();
        for _look in 0..MOST_MILLIS {
            if kept.is_failing() {
                return None;
            }
            if is_past(self.clock, end) {
                break;
            }
            thread::sleep(self.clock, Duration::from_millis(1));
            if pass.is_covered(mark, kept, &mut reader) {
                return Some(reader);
            }
        }
        // The device may hang, so the next replies don't wait for it.
        kept.set_failing(true);
        None
    }

    // When a wait that begins now ends. Two seconds are that many sleeps at least.
    fn end(&self) -> Option<Instant> {
        let now = Instant::now(self.clock).ok()?;
        now.checked_add(self.most.min(Duration::from_millis(u64::from(MOST_MILLIS))))
    }
}

// Whether a moment is past. False if it isn't known, or the clock can't be read.
fn is_past<H: Clock>(clock: &H, moment: Option<Instant>) -> bool {
    match (moment, Instant::now(clock)) {
        (Some(moment), Ok(now)) => moment <= now,
        _ => false,
    }
}

impl<'a, H: Clock> Cover<KeptCells> for StoreCover<'a, H> {
    type Receipt = Option<Reader>;

    ghost marks = { λ _ mark pass. IsMark mark pass };

    ghost covers = { λ c receipt before after. IfSome c.kept (λ kept.
        ShowsCovered (arc_value kept) receipt (drop (length before.events) after.events)) };

    ghost withholds = { λ c. is_some c.kept };

    fn begin(&self, pass: &mut KeptPass) -> u64
        ensures same { pass.new ≡ pass.old }
        ensures marks { IsMark result pass.new }
    {
        pass.begin()
    }

    fn settle(&self, _cells: &KeptCells, pass: &mut KeptPass, mark: u64) -> Option<Option<Reader>>
        ensures same { pass.new ≡ pass.old }
        ensures covered { (before : PassView) → IsMark mark before → IfSome result (λ receipt.
            IfSome self.now.kept (λ kept. ShowsCovered (arc_value kept) receipt
            (drop (length before.events) pass.new.events))) }
        ensures none { IfNone result (is_some self.now.kept ≡ true) }
    {
        match &self.kept {
            Some(kept) => match self.wait(kept, &*pass, mark) {
                Some(reader) => Some(Some(reader)),
                None => None,
            },
            None => Some(None),
        }
    }
}
