//! Whether an app's file offers a version, as far as that is certain.

ghost use Rattle.std.specs.Prelude.{◌≡◌, IfOk, IfSome, Some};
ghost use Rattle.load.specs.Kept.{whole_file};
ghost use Rattle.manifest.specs.declared.app.ProgramSource.TheVariants.{Rule};
ghost use Rattle.stage_rules.specs.Lifting.{IsKnown, IsKnownAmong};

use crate::halting::is_halting_file;
use crate::offers::is_offered;
use load::{AppSources, whole_file};
use manifest::ProgramSource;
use rule_lang::{RuleFault, parse};
use std::alloc::{AllocError, Global};
use std::str;

// The same of a rule with these bytes.
fn known_of_rule(
    alloc: Global,
    app: &AppSources,
    bytes: &[u8],
    version: &str,
) -> Result<Option<bool>, AllocError>
    requires whole { whole_file app.now.kept ≡ Some bytes.now }
    requires rule { (file : _) × (app.now.entry.source ≡ Rule file) }
    ensures { IfOk result (λ offered. IfSome offered (IsKnown app.now version.now)) }
{
    let Ok(text) = str::from_utf8(bytes) else {
        return Ok(None);
    };
    match parse(alloc, text, &app.shape) {
        Ok(rule) => Ok(Some(is_offered(app.entry.releases(), version, rule.statements()))),
        Err(RuleFault::Memory) => Err(AllocError),
        Err(_) => Ok(None),
    }
}

/// Whether an app's file offers a version, if that is certain: a file that couldn't be read, or
/// that isn't a rule, may offer any. A program that doesn't halt its app counts as an offer.
// open: whether an allocation fails, which is its one error; whether it is certain: rows.
pub fn known_offer(
    alloc: Global,
    app: &AppSources,
    version: &str,
) -> Result<Option<bool>, AllocError>
    ensures { IfOk result (λ offered. IfSome offered (IsKnown app.now version.now)) }
{
    let Some(bytes) = whole_file(&app.kept) else {
        return Ok(None);
    };
    let source = app.entry.source();
    if is_halting_file(source, bytes) {
        return Ok(Some(false));
    }
    match source {
        ProgramSource::Program(_) => Ok(Some(true)),
        ProgramSource::Rule(_) => known_of_rule(alloc, app, bytes, version),
    }
}

/// The same of the app of this appid. A manifest without the app offers nothing.
pub(crate) fn known_among(
    alloc: Global,
    apps: &[AppSources],
    appid: &str,
    version: &str,
) -> Result<Option<bool>, AllocError>
    ensures { IfOk result (λ offered.
        IfSome offered (IsKnownAmong apps.now appid.now version.now)) }
{
    let mut left = apps;
    while let [app, others @ ..] = left {
        if app.entry.appid() == appid {
            return known_offer(alloc, app, version);
        }
        left = others;
    }
    Ok(Some(false))
}
