//! The workers of a server, each with a pass (a ghost token) to the cells and a watcher of the
//! newest ruleset.

ghost use Rattle.std.specs.Prelude.{◌≡◌, ◌≤◌, All, IfErr, IfOk, length};
ghost use Rattle.shared_cells.specs.Passes.{IsNewPass};
ghost use Rattle.serving.specs.Staff.{IsNewWorker};
ghost use Rattle.serving.specs.Staffed.{IsStaffFault};

use crate::serving_fault::ServingFault;
use bounded_files::ResourceFault;
use hot_swap::{Publisher, Watcher};
use shared_cells::SharedPass;
use std::alloc::Global;

/// A worker for each of these passes, with a watcher of this publisher, which has a place for each.
/// Returns H1 if a watcher can't be allocated, and B4 if the list can't.
pub(crate) fn worker_list(
    alloc: Global,
    mut passes: Vec<SharedPass>,
    publisher: &mut Publisher,
) -> Result<Vec<(SharedPass, Watcher)>, ServingFault>
    requires places { length passes.items ≤ publisher.old.places }
    ensures fault { IfErr result IsStaffFault }
    ensures all { IfOk result (λ v. length v.items ≡ length passes.items) }
    ensures each { (table : _) → All (IsNewPass table) passes.items
        → IfOk result (λ v. All (IsNewWorker table publisher.old.known) v.items) }
    ensures known { publisher.new.known ≡ publisher.old.known }
    ensures latest { publisher.new.latest ≡ publisher.old.latest }
{
    let mut workers = Vec::new(alloc);
    while let Some(pass) = passes.pop() {
        let watcher = match publisher.watcher() {
            Ok(watcher) => watcher,
            Err(fault) => return Err(ServingFault::Publisher(fault)),
        };
        let Ok(()) = workers.push((pass, watcher)) else {
            return Err(ServingFault::Resource(ResourceFault::Memory));
        };
    }
    Ok(workers)
}
