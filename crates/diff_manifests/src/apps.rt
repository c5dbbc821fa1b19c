//! The releases and the arrays of an app that a manifest may lack.

ghost use Rattle.std.specs.Prelude.{◌≡◌, ◌≤◌, length, option_copied};
ghost use Rattle.diff_manifests.specs.Apps as specs;
ghost use Rattle.diff_manifests.specs.Outcomes as outcomes;

use cells::CellArray;
use load::JudgedApp;
use releases::Release;

/// The releases of an app; none if the manifest lacks it.
pub(crate) fn releases_or_none<'a>(app: Option<&'a JudgedApp>) -> &'a [Release]
    ensures releases { result.now ≡ specs.releases_or_none (option_copied app.entry) }
    ensures few { length result.now ≤ 64 }
{
    match app {
        Some(app) => app.sources.entry.releases(),
        None => &[],
    }
}

/// The arrays of an app's manifest; none if the manifest lacks the app.
pub(crate) fn arrays_or_none<'a>(app: Option<&'a JudgedApp>) -> &'a [CellArray]
    ensures { result.now ≡ outcomes.arrays_or_none (option_copied app.entry) }
{
    match app {
        Some(app) => app.program.shape().arrays(),
        None => &[],
    }
}
