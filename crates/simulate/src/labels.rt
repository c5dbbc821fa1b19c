//! Releases by their versions, and the names of choices.

ghost use Rattle.std.specs.Prelude.{◌≡◌, ◌<◌, ◌≤◌, length, option_copied};
ghost use Rattle.simulate.specs.Shown as specs;

use bpf_verify::Verified;
use printing::width_of;
use ruleset::App;
use std::fmt;
use std::fmt::{Display, Formatter, Write};

/// The number of an app's releases, at most 64.
pub fn release_count(app: Option<&App>) -> usize
    ensures count { result ≡ length (specs.versions_or_none (option_copied app.entry)) }
    ensures few { result ≤ 64 }
{
    match app {
        Some(app) => count_of(app),
        None => 0,
    }
}

fn count_of(app: &App) -> usize
    ensures count { result ≡ length (specs.versions_of app.now) }
    ensures few { result ≤ 64 }
{
    let program: &Verified = app.program();
    program.invariant_law();
    app.releases().len()
}

/// The version of the release with this number.
pub fn version_at<'a>(app: Option<&'a App>, choice: usize) -> &'a str
    ensures { result.now
        ≡ specs.version_at (specs.versions_or_none (option_copied app.entry)) choice }
{
    match app {
        Some(app) => version_in(app, choice.saturating_sub(1)),
        None => "",
    }
}

fn version_in(app: &App, place: usize) -> &str
    ensures { result.now ≡ specs.version_in (specs.versions_of app.now) place }
{
    let releases = app.releases();
    if place < releases.len() {
        releases[place].version()
    } else {
        ""
    }
}

/// The width of the widest version, but at least `least`.
pub(crate) fn widest_version(least: usize, app: Option<&App>) -> usize {
    let Some(app) = app else {
        return least;
    };
    let mut most = least;
    for release in app.releases() {
        most = most.max(width_of(release.version()));
    }
    most
}

/// A choice as it is printed: none, or a release's number in two places and its version.
#[derive(Drop)]
pub(crate) struct ChoiceLabel<'a> {
    pub app: &'a App,
    pub choice: usize,
}

impl<'a> ChoiceLabel<'a> {
    /// Its width, in characters.
    pub(crate) fn width(&self) -> usize {
        if self.choice == 0 {
            4
        } else {
            width_of(version_at(Some(self.app), self.choice)).saturating_add(3)
        }
    }
}

impl<'a> Display for ChoiceLabel<'a> {
    fn fmt<W: Write>(&self, f: &mut Formatter<W>) -> fmt::Result {
        let choice = self.choice;
        if choice == 0 {
            return f.write_str("none");
        }
        let version = version_at(Some(self.app), choice);
        let blank = if choice < 10 { " " } else { "" };
        write!(f, "{choice}{blank} {version}")
    }
}
