//! Warnings on an appid.

ghost use Rattle.std.specs.Prelude.{◌≡◌, ◌++◌, OnOk};
ghost use Rattle.warnings.specs.Releases as specs;

use crate::warning::{Warning, WarningKind, WarningPlace, warn_if};
use printing::has_control;
use std::alloc::AllocError;

/// A warning on an appid that has an unprintable character. Apps are numbered from 1.
// open: whether an allocation fails.
pub fn push_appid_warning(
    warnings: &mut Vec<Warning>,
    app: usize,
    appid: &str,
) -> Result<(), AllocError>
    ensures { OnOk result (warnings.new.items
        ≡ warnings.old.items ++ specs.appid_warning app appid.now) }
{
    warn_if(
        warnings,
        has_control(appid),
        WarningPlace::App(app),
        WarningKind::UnprintedAppid,
    )
}
