//! The file of an app, and the place of its fault in it.

ghost use Rattle.std.specs.Prelude.{◌≡◌, [], false, string_bytes};
ghost use Rattle.why_refused_manifest.specs.Inside as specs;

use crate::inside::is_inside;
use crate::shown::{FaultPlace, show};
use load::AppSources;
use manifest::ProgramSource;
use printing::TextBuffer;
use std::alloc::Global;

/// Appends the name of the file of the app with this number, and the place in it.
pub(crate) fn push_file_reason(
    alloc: Global,
    text: &mut TextBuffer,
    apps: &[AppSources],
    number: usize,
    place: FaultPlace,
) {
    let Some(app) = apps.get(number.saturating_sub(1)) else {
        text.leave_out();
        return;
    };
    text.push_number("app[", number as u64, "].");
    text.push(match app.entry.source() {
        ProgramSource::Program(_) => "program",
        ProgramSource::Rule(_) => "rule",
    });
    text.push_printed(": ", app.entry.source().file(), "\n");
    let shown = show_inside(alloc, place, app);
    text.push(shown.as_str());
}

// The place in the file; nothing, if the file isn't in the manifest's folder, or out of memory.
fn show_inside(alloc: Global, place: FaultPlace, app: &AppSources) -> String
    ensures { specs.lies_inside app.now ≡ false → string_bytes result ≡ [] }
{
    if !lies_inside(app) {
        return String::new(alloc);
    }
    match show(alloc, place, &app.shape, &app.kept) {
        Some(text) => text,
        None => String::new(alloc),
    }
}

// Whether the file is in the manifest's folder, by its name and with no symbolic link in its path.
fn lies_inside(app: &AppSources) -> bool
    ensures { result ≡ specs.lies_inside app.now }
{
    is_inside(app.entry.source().file()) && !app.through_link
}
