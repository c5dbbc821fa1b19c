//! The end of a server: its threads have returned their passes (ghost tokens) and watchers, and its
//! counters are closed.

ghost use Rattle.std.specs.Prelude.{◌≡◌, ◌+◌, ◌≤◌, [], All, IsTrue, length, vec_capacity};
ghost use mathlib.Core.List.{IsPrefix};
ghost use Rattle.shared_cells.specs.Passes.{AreClosed, AreLeftBy, IsPassOf};
ghost use Rattle.shared_cells.specs.Quotas.{QuotasAreExact};
ghost use Rattle.serving.specs.Ended.{IsOfServer, passes_of};

use cells::Directory;
use hot_swap::{Generation, Notice, Watcher, generations_monotone};
use kept_cells::KeptPass;
use shared_cells::{Closed, SharedCells, SharedPass};
use workers::Returned;

/// What is left of a server: its closed counters, its arrays, and the appids of its halted apps.
#[derive(Drop)]
pub(crate) struct Ended {
    pub(crate) closed: Closed,
    pub(crate) directory: Directory,
    pub(crate) halted: Vec<String>,
    /// Whether each worker's watcher could be read, and has read only what was published.
    pub(crate) is_known: bool,
}

/// Closes the cells by all passes to them, which fit into `room`.
pub(crate) fn close_cells(
    cells: SharedCells,
    back: Returned<KeptPass>,
    mut room: Vec<SharedPass>,
) -> Ended
    requires all { cells.passes ≡ length back.workers.items + 1 }
    requires operator { IsPassOf cells back.operator }
    requires workers { All (IsOfServer cells back.published.publisher) back.workers.items }
    requires generation { back.generation ≡ length back.published.rulesets }
    requires empty { room.items ≡ [] }
    requires enough { length back.workers.items + 1 ≤ vec_capacity room }
    ensures own { AreClosed cells result.closed }
    ensures passes { result.closed.passes ≡ passes_of back.operator back.workers.items }
    ensures history { AreLeftBy cells.opening result.closed.passes result.closed.values }
    ensures quotas { QuotasAreExact cells.opening result.closed.passes result.closed.values }
    ensures arrays { result.directory ≡ back.directory }
    ensures halted { result.halted ≡ back.halted }
    ensures prefix { IsTrue result.is_known
        → All (λ worker. IsPrefix worker.1.rulesets back.published.rulesets) back.workers.items }
{
    let Returned {
        operator,
        end: _end,
        mut workers,
        published,
        generation,
        directory,
        halted,
    } = back;
    room.push_reserved(operator.into_pass());
    let mut is_known = true;
    while let Some(worker) = workers.pop() {
        let (pass, reads_published) = pass_of(worker, &published, generation);
        room.push_reserved(pass);
        is_known = both(is_known, reads_published);
    }
    let Ok(closed) = cells.close(room) else {
        unreachable!()
    };
    Ended {
        closed,
        directory,
        halted,
        is_known,
    }
}

// The pass of a worker, and whether its watcher has read only what was published, up to this
// generation. False if it has read more, which can't be, or if it can't be read.
fn pass_of(
    worker: (KeptPass, Watcher),
    published: &Notice,
    generation: Generation,
) -> (SharedPass, bool)
    requires publisher { published.now.publisher ≡ worker.1.publisher }
    requires generation { generation ≡ length published.now.rulesets }
    ensures same { result.0 ≡ worker.0 }
    ensures prefix { IsTrue result.1 → IsPrefix worker.1.rulesets published.now.rulesets }
{
    generations_monotone();
    let (pass, mut watcher) = worker;
    let pass = pass.into_pass();
    watcher.learn(published);
    match watcher.current() {
        Ok((seen, _)) => (pass, seen <= generation),
        Err(_) => (pass, false),
    }
}

fn both(first: bool, second: bool) -> bool
    ensures first { IsTrue result → IsTrue first }
    ensures second { IsTrue result → IsTrue second }
{
    first && second
}
