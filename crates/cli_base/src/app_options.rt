//! The app that the options describe: its attributes, its bucket, and the day of its installation.

ghost use Rattle.std.specs.Prelude.{◌≡◌, ◌≤◌, IfNone, IfOk, IfSome, OnErr, Some};
ghost use Rattle.std.specs.Prelude.{codes, length, map};
ghost use Rattle.std.specs.Option.{option_and_then, option_copied};
ghost use Rattle.std.specs.Result.{result_ok};
ghost use Rattle.attrs.specs.Bucket.{cohort_bucket};
ghost use Rattle.clap.specs.Words.{first_of, found_of, rows_of};
ghost use Rattle.cli_base.specs.AppOptions as specs;
ghost use Rattle.cli_base.specs.Day.{day_in};
ghost use Rattle.cli_base.specs.Seconds.{moment_in};
ghost use Rattle.cli_base.specs.Values.{HasFlag};

use crate::app_args::AppArgs;
use crate::argument_fault::{ArgsError, ArgumentFault};
use crate::day::day_in;
use crate::second::moment_of;
use crate::values::{bucket_of, flag_of, optional_text};
use attrs::{Bucket, Context, Moment, cohort_bucket};
use clap::ArgMatches;

/// The last day of an installation: the next number means that the day is unknown.
const LAST_INSTALLED: u32 = Context::UNKNOWN_DAY - 1;

/// The app that the options describe. An error unless its moment and its day of installation are
/// well-formed, each text of `--attr` gives one of the attributes, and no two give the same.
pub fn read_app<'a>(found: &ArgMatches<'a>) -> Result<AppArgs<'a>, ArgsError>
    ensures given { IfOk result (specs.HasApp (rows_of (found_of found.now))) }
    ensures lacking { OnErr result (specs.LacksApp (rows_of (found_of found.now))) }
{
    let moment = moment_of(found)?;
    let installed = installed_of(found)?;
    match app_at(found, &moment, installed) {
        Some(app) => Ok(app),
        None => Err(ArgsError::Wrong(ArgumentFault::Attributes)),
    }
}

// The app at this moment, installed on this day. `None` unless each text gives one of the
// attributes, and no two give the same.
fn app_at<'a>(
    found: &ArgMatches<'a>,
    moment: &Moment,
    installed: Option<u32>,
) -> Option<AppArgs<'a>>
    ensures given { IfSome result (λ app.
        moment_in (rows_of (found_of found.now)) ≡ Some moment.now
        → specs.install_day (first_of (codes "installed") (rows_of (found_of found.now)))
        ≡ Some installed → specs.HasApp (rows_of (found_of found.now)) app) }
    ensures lacking { IfNone result (specs.LacksAttributes (rows_of (found_of found.now))) }
{
    let app = described(found, moment, installed);
    let given = count_given(found);
    let counted = count_attributes(&app);
    if given == counted { Some(app) } else { None }
}

// The app with this moment and day, and the first text of each attribute.
fn described<'a>(found: &ArgMatches<'a>, moment: &Moment, installed: Option<u32>) -> AppArgs<'a>
    ensures attributes { specs.HasAttributes (rows_of (found_of found.now)) result }
    ensures ping { HasFlag (codes "ping") (rows_of (found_of found.now)) result.ping }
    ensures event { HasFlag (codes "event") (rows_of (found_of found.now)) result.event }
    ensures moment { result.moment ≡ moment.now }
    ensures installed { result.installed ≡ installed }
{
    AppArgs {
        appid: attribute_of(found, "appid="),
        version: optional_text(found, "version"),
        brand: attribute_of(found, "brand="),
        ap: attribute_of(found, "ap="),
        lang: attribute_of(found, "lang="),
        cohort: attribute_of(found, "cohort="),
        platform: attribute_of(found, "platform="),
        ping: flag_of(found, "ping"),
        event: flag_of(found, "event"),
        moment: *moment,
        installed,
    }
}

// ---- attributes

// How many attributes the app has.
fn count_attributes(app: &AppArgs<'_>) -> usize
    ensures { result ≡ specs.count_attributes app.now }
{
    count(app.appid)
        + count(app.brand)
        + count(app.ap)
        + count(app.lang)
        + count(app.cohort)
        + count(app.platform)
}

fn count(text: Option<&str>) -> usize
    ensures value { result ≡ specs.count_text (option_copied text.entry) }
    ensures limit { result ≤ 1 }
{
    if text.is_some() { 1 } else { 0 }
}

// The number of texts NAME=TEXT.
fn count_given(found: &ArgMatches<'_>) -> usize
    ensures { result ≡ length (specs.given (rows_of (found_of found.now))) }
{
    match found.get_strs("attr") {
        Some(given) => given.len(),
        None => 0,
    }
}

// The rest of the first text that begins with `name`, which ends with `=`.
fn attribute_of<'a>(found: &ArgMatches<'a>, name: &str) -> Option<&'a str>
    ensures { option_copied result
        ≡ specs.value_in (specs.given (rows_of (found_of found.now))) name.now }
{
    match found.get_strs("attr") {
        Some(given) => value_in(given, name),
        None => None,
    }
}

fn value_in<'a>(given: &[&'a str], name: &str) -> Option<&'a str>
    ensures { option_copied result
        ≡ specs.value_in (map (λ text. text.now) given.now) name.now }
{
    for text in given {
        if let Some(value) = value_of(*text, name) {
            return Some(value);
        }
    }
    None
}

fn value_of<'a>(text: &'a str, name: &str) -> Option<&'a str>
    ensures { option_copied result ≡ specs.value_of text.now name.now }
{
    text.strip_prefix(name)
}

// ---- the day of the installation

// The day of the installation, if an option gives it.
fn installed_of(found: &ArgMatches<'_>) -> Result<Option<u32>, ArgsError>
    ensures { result_ok result
        ≡ specs.install_day (first_of (codes "installed") (rows_of (found_of found.now))) }
{
    install_day(optional_text(found, "installed"))
}

fn install_day(text: Option<&str>) -> Result<Option<u32>, ArgsError>
    ensures { result_ok result ≡ specs.install_day (option_copied text.entry) }
{
    match text {
        Some(text) => match day_in(LAST_INSTALLED, text) {
            Some(day) => Ok(Some(day)),
            None => Err(ArgsError::Wrong(ArgumentFault::Installed)),
        },
        None => Ok(None),
    }
}

// ---- bucket

/// The bucket of `--bucket`, or 0 without it, if the cohort names none. If the cohort names one,
/// `None`, and giving `--bucket` is an error.
pub fn read_bucket(
    found: &ArgMatches<'_>,
    cohort: Option<&str>,
) -> Result<Option<Bucket>, ArgsError>
    ensures given { IfOk result
        (specs.HasAppBucket (rows_of (found_of found.now)) (option_copied cohort.entry)) }
    ensures lacking { OnErr result
        (specs.LacksAppBucket (rows_of (found_of found.now)) (option_copied cohort.entry)) }
{
    given_bucket(found, bucket_named(cohort), optional_text(found, "bucket"))
}

fn given_bucket(
    found: &ArgMatches<'_>,
    named: Option<Bucket>,
    text: Option<&str>,
) -> Result<Option<Bucket>, ArgsError>
    ensures given { IfOk result
        (specs.IsGivenBucket (rows_of (found_of found.now)) named (option_copied text.entry)) }
    ensures lacking { OnErr result
        (specs.LacksGivenBucket (rows_of (found_of found.now)) named (option_copied text.entry)) }
{
    match (named, text) {
        (Some(_), Some(_)) => Err(ArgsError::Wrong(ArgumentFault::Bucket)),
        (Some(_), None) => Ok(None),
        (None, Some(_)) => Ok(Some(bucket_of(found)?)),
        (None, None) => Ok(Some(Bucket::new(0))),
    }
}

// The bucket that a cohort names.
fn bucket_named(cohort: Option<&str>) -> Option<Bucket>
    ensures { result ≡ option_and_then cohort_bucket (option_copied cohort.entry) }
{
    match cohort {
        Some(cohort) => cohort_bucket(cohort),
        None => None,
    }
}
