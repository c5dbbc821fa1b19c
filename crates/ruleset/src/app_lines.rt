//! Lines about apps.

ghost use Rattle.std.specs.Prelude.{◌≡◌, ◌++◌, flat_map, OnOk, string_bytes};
ghost use Rattle.ruleset.specs.Texts.{app_line};

use crate::app::App;
use bpf_verify::Verified;
use std::alloc::AllocError;
use std::fmt::Write;

/// Appends a line for each app: its appid, the number of its releases, and the number of its
/// program's slots.
// open: whether an allocation fails.
pub fn push_app_lines(text: &mut String, apps: &[App]) -> Result<(), AllocError>
    ensures { OnOk result
        (string_bytes text.new ≡ string_bytes text.old ++ flat_map app_line apps.now) }
{
    for app in apps {
        tell_app(text, app)?;
    }
    Ok(())
}

fn tell_app(text: &mut String, app: &App) -> Result<(), AllocError>
    ensures { OnOk result (string_bytes text.new ≡ string_bytes text.old ++ app_line app.now) }
{
    let program: &Verified = app.program();
    let appid = app.appid();
    let releases = app.releases().len();
    let slots = program.len();
    writeln!(text, "app {appid} releases {releases} slots {slots}")
}
