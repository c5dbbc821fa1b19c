//! The bell by which a server's threads wake the one that stores the counters, with the news for
//! it.

ghost use Rattle.std.specs.Prelude.{◌≡◌, IfOk, option_map};
ghost use Rattle.std.specs.Arc.{arc_value};

use crate::news::News;
use counter_store::CounterStore;
use counters_file::KeptFile;
use kept_cells::Kept;
use operator::Control;
use std::alloc::AllocError;
use std::sync::atomic::{AtomicBool, Ordering};
use std::sync::{Arc, Mutex, Wait};
use std::thread;
use std::time::{Clock, Duration};

/// How long the thread waits for its bell. It looks for news that often.
const MOST_SECONDS: u64 = 1;

/// What the thread shares with the others besides the ceilings.
#[derive(Drop)]
pub struct StoreBell {
    kept: Option<Arc<Kept>>,
    news: Mutex<Option<News>>,
    has_lost_note: AtomicBool,
    has_ended: AtomicBool,
}

impl StoreBell {
    /// The bell of a store's thread; without a store it does nothing.
    // open: whether it can be shared.
    pub fn of<F: KeptFile + Drop>(
        store: &Option<CounterStore<F>>,
    ) -> Result<StoreBell, AllocError> {
        let kept = shared_of(store)?;
        Ok(StoreBell {
            kept,
            news: Mutex::new(None),
            has_lost_note: AtomicBool::new(false),
            has_ended: AtomicBool::new(false),
        })
    }

    /// The news since the last call, if there are any.
    pub(crate) fn take<H: Wait>(&self, rt: &H) -> Option<News> {
        let mut place = self.news.lock(rt);
        place.take()
    }

    /// Puts news back that were taken, unless there are newer ones.
    pub(crate) fn put_back<H: Wait>(&self, rt: &H, news: News) {
        let mut place = self.news.lock(rt);
        if place.is_none() {
            *place = Some(news);
        }
    }

    /// Waits for the bell, for a second at most.
    pub(crate) fn wait<H: Wait + Clock>(&self, rt: &H) {
        let most = Duration::from_secs(MOST_SECONDS);
        match &self.kept {
            Some(kept) => kept.wait(rt, most),
            None => thread::sleep(rt, most),
        }
    }

    /// Whether all workers have ended.
    pub(crate) fn has_ended(&self) -> bool {
        self.has_ended.load(Ordering::SeqCst)
    }

    /// Notes what a control has, after another ruleset was installed: arrays may be new, and other
    /// apps may be halted. If an allocation fails, the note is lost until the next one. Until
    /// then replies that take from a new quota are withheld, and a crash undoes a new halt or
    /// resume.
    // open: that the thread adopts it: tests.
    pub fn note<H>(&self, rt: &H, control: &Control)
    where
        H: Wait + AllocGlobal,
    {
        if self.kept.is_none() {
            return;
        }
        let Ok(news) = News::of(rt.alloc(), control) else {
            self.has_lost_note.store(true, Ordering::SeqCst);
            return;
        };
        self.has_lost_note.store(false, Ordering::SeqCst);
        let mut place = self.news.lock(rt);
        *place = Some(news);
        drop(place);
        self.ring();
    }

    /// Whether the last note was lost, since an allocation failed.
    // open: that it says so: tests.
    pub fn has_lost_note(&self) -> bool {
        self.has_lost_note.load(Ordering::SeqCst)
    }

    /// Ends the thread, after all workers.
    // open: that it ends: tests.
    pub fn end(&self) {
        self.has_ended.store(true, Ordering::SeqCst);
        self.ring();
    }

    fn ring(&self) {
        if let Some(kept) = &self.kept {
            kept.ring();
        }
    }
}

/// What a store shares with the workers, if there is a store.
// open: whether it can be shared.
pub fn shared_of<F: KeptFile + Drop>(
    store: &Option<CounterStore<F>>,
) -> Result<Option<Arc<Kept>>, AllocError>
    ensures { IfOk result (λ kept.
        option_map arc_value kept ≡ option_map (λ s. s.ledger.ceilings) store.now) }
{
    match store {
        Some(store) => match store.shared() {
            Ok(kept) => Ok(Some(kept)),
            Err(_) => Err(AllocError),
        },
        None => Ok(None),
    }
}
