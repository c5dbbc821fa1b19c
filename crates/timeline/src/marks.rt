//! The rows for a chart, and the series that include them.

ghost use Rattle.std.specs.Prelude.{◌≡◌, ◌+◌, IfOk};
ghost use Rattle.std.specs.Option.{option_copied};
ghost use Rattle.report.specs.Exposition.{first, rest};
ghost use Rattle.timeline.specs.Marks as specs;

use crate::series_rows::names_of;
use lexing::decimal_within;
use std::alloc::{AllocError, Global};
use std::collections::BTreeMap;

/// The last minute of the year 9999, counted from 1970; all times of a server's log are before its
/// end.
pub(crate) const LAST_MINUTE: u64 = 4223371679;

/// A series: the update checks, offers, ended installs or failed installs of an app, for one of its
/// versions or for all.
#[derive(Clone, Copy)]
pub(crate) struct Series<'a> {
    pub what: &'a str,
    pub app: &'a str,
    pub version: Option<&'a str>,
}

impl<'a> Series<'a> {
    /// The series of all versions of an app.
    pub(crate) fn of_all(what: &'a str, app: &'a str) -> Series<'a>
        ensures { specs.drawn_by result ≡ specs.of_all what.now app.now }
    {
        Series {
            what,
            app,
            version: None,
        }
    }

    /// The series of one version.
    pub(crate) fn of_version(self, version: &'a str) -> Series<'a>
        ensures { specs.drawn_by result ≡ specs.of_version (specs.drawn_by self.entry) version.now }
    {
        Series {
            version: Some(version),
            ..self
        }
    }
}

/// The minute or hour of a name, if the series includes it.
pub(crate) fn moment_of(drawn: Series<'_>, name: &str) -> Option<u64>
    ensures { result ≡ specs.moment_of (specs.drawn_by drawn.entry) name.now }
{
    let name = rest_after(drawn.what, name)?;
    let name = rest_after(drawn.app, name)?;
    let text = rest_after_any(drawn.version, name)?;
    moment_in(text)
}

/// The minute or hour of any name.
pub(crate) fn any_moment(name: &str) -> Option<u64> {
    moment_in(rest(rest(rest(name))))
}

fn moment_in(text: &str) -> Option<u64>
    ensures { result ≡ specs.moment_in text.now }
{
    decimal_within(text, 0, LAST_MINUTE)
}

/// The count of a series. Also returns `AllocError` if it overflows 64 bits.
pub(crate) fn drawn_count(
    alloc: Global,
    rows: &BTreeMap<String, u64>,
    drawn: Series<'_>,
) -> Result<u64, AllocError>
    ensures { IfOk result
        (λ n. n ≡ specs.drawn_count rows.now.entries (specs.drawn_by drawn.entry)) }
{
    let mut count = 0;
    let names = names_of(alloc, drawn)?;
    for (name, n) in rows.range(&names.first..&names.end) {
        count = added(count, count_if(drawn, name.as_str(), *n))?;
    }
    Ok(count)
}

fn count_if(drawn: Series<'_>, name: &str, n: u64) -> u64
    ensures { result ≡ specs.count_if_named (specs.drawn_by drawn.entry) name.now n }
{
    if moment_of(drawn, name).is_some() {
        n
    } else {
        0
    }
}

/// The sum of two numbers. Returns `AllocError` if it overflows 64 bits.
pub(crate) fn added(n: u64, more: u64) -> Result<u64, AllocError>
    ensures { IfOk result (λ sum. sum ≡ n + more) }
{
    match n.checked_add(more) {
        Some(sum) => Ok(sum),
        None => Err(AllocError),
    }
}

// ---- the texts of a name

/// The rest of the name, if its first text is `text`.
pub(crate) fn rest_after<'a>(text: &str, name: &'a str) -> Option<&'a str>
    ensures { option_copied result ≡ specs.rest_after text.now name.now }
{
    if first(name) == text {
        Some(rest(name))
    } else {
        None
    }
}

fn rest_after_any<'a>(text: Option<&str>, name: &'a str) -> Option<&'a str>
    ensures { option_copied result ≡ specs.rest_after_any (option_copied text.entry) name.now }
{
    match text {
        Some(text) => rest_after(text, name),
        None => Some(rest(name)),
    }
}

/// The first text of a name.
pub(crate) fn first<'a>(name: &'a str) -> &'a str
    ensures { result.now ≡ first name.now }
{
    match name.split_once('\t') {
        Some((text, _)) => text,
        None => name,
    }
}

/// The texts after the first.
pub(crate) fn rest<'a>(name: &'a str) -> &'a str
    ensures { result.now ≡ rest name.now }
{
    match name.split_once('\t') {
        Some((_, others)) => others,
        None => "",
    }
}
