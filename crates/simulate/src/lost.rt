//! Which buckets lose the release that they have.

ghost use Rattle.std.specs.Prelude.{◌≡◌, None, IfOk, option_copied};
ghost use Rattle.simulate.specs.Moving as specs;
ghost use Rattle.simulate.specs.Counts.{choices_or_none};
ghost use Rattle.simulate.specs.Shown.{offer_of, offered, versions_or_none};

use crate::choices::Choices;
use crate::labels::version_at;
use crate::simulated::{Offered, Simulated};
use attrs::read_version;
use ruleset::App;
use std::alloc::{AllocError, Global};

/// Whether a bucket loses its release when it moves from one choice to the other: it gets none, or
/// a release with a lower version.
pub fn loses(now: Option<&App>, next: Option<&App>, from: usize, to: usize) -> bool
    ensures { result ≡ specs.loses (versions_or_none (option_copied now.entry))
        (versions_or_none (option_copied next.entry)) from to }
{
    if from == 0 {
        false
    } else if to == 0 {
        true
    } else {
        is_lower(version_at(next, to), version_at(now, from))
    }
}

fn is_lower(version: &str, other: &str) -> bool
    ensures { result ≡ specs.is_lower version.now other.now }
{
    match (read_version(version), read_version(other)) {
        (Some(v), Some(w)) => lower_numbers(v, w),
        _ => false,
    }
}

fn lower_numbers(v: [u32; 4], w: [u32; 4]) -> bool
    ensures { result ≡ specs.lower_numbers v w }
{
    v[0] < w[0]
        || (v[0] == w[0]
            && (v[1] < w[1] || (v[1] == w[1] && (v[2] < w[2] || (v[2] == w[2] && v[3] < w[3])))))
}

// Whether some bucket of an app loses its release.
fn some_lose(now: Offered<'_>, next: Offered<'_>) -> bool
    ensures { result ≡ specs.some_lose
        (offered (option_copied now.entry.0) now.entry.1.now)
        (offered (option_copied next.entry.0) next.entry.1.now) }
{
    let mut from = now.1.as_slice();
    let mut to = next.1.as_slice();
    while let [one, more_from @ ..] = from {
        let [other, more_to @ ..] = to else {
            return false;
        };
        if loses(now.0, next.0, *one as usize, *other as usize) {
            return true;
        }
        from = more_from;
        to = more_to;
    }
    false
}

fn loses_of(now: &Simulated, next: &Simulated, none: &Choices, appid: &str) -> bool
    requires { none.now ≡ choices_or_none None }
    ensures { result
        ≡ specs.some_lose (offer_of now.now appid.now) (offer_of next.now appid.now) }
{
    some_lose(now.offer(none, appid), next.offer(none, appid))
}

/// Whether some bucket loses its release of an app: the next ruleset gives it none, or one with a
/// lower version. The tables of `push_moves` mark such a move as lost.
// open: whether an allocation fails.
pub fn is_lossy(alloc: Global, now: &Simulated, next: &Simulated) -> Result<bool, AllocError>
    ensures { IfOk result (λ lossy. lossy ≡ specs.is_lossy now.now next.now) }
{
    let none = Choices::none(alloc)?;
    let mut left = now.apps();
    while let [app, rest @ ..] = left {
        if loses_of(now, next, &none, app.appid()) {
            return Ok(true);
        }
        left = rest;
    }
    Ok(false)
}
