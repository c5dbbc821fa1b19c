//! The workers of a server whose counters may be stored: their passes note what they take.

ghost use Rattle.std.specs.Prelude.{◌≡◌, [], All, IfOk};

use hot_swap::Watcher;
use kept_cells::KeptPass;
use shared_cells::SharedPass;
use std::alloc::{AllocError, Global};

/// These workers, with passes that note what they take if there is a store.
// open: whether an allocation fails.
pub(crate) fn kept_workers(
    alloc: Global,
    workers: Vec<(SharedPass, Watcher)>,
    is_stored: bool,
) -> Result<Vec<(KeptPass, Watcher)>, AllocError>
    requires new { All (λ worker. worker.0.events ≡ []) workers.items }
    ensures same { IfOk result (λ v. v.items ≡ workers.items) }
{
    let mut kept = Vec::new(alloc);
    for (pass, watcher) in workers {
        let Ok(pass) = kept_pass(alloc, pass, is_stored) else {
            return Err(AllocError);
        };
        let Ok(()) = kept.push((pass, watcher)) else {
            return Err(AllocError);
        };
    }
    Ok(kept)
}

fn kept_pass(alloc: Global, pass: SharedPass, is_stored: bool) -> Result<KeptPass, AllocError>
    requires { pass.events ≡ [] }
    ensures { IfOk result (λ p. p ≡ pass) }
{
    if is_stored {
        KeptPass::noting(alloc, pass)
    } else {
        Ok(KeptPass::plain(pass))
    }
}
