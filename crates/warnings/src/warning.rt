//! A warning: the place in a manifest, and what is probably not intended there.

ghost use Rattle.std.specs.Prelude.{◌≡◌, ◌++◌, OnOk};
ghost use Rattle.warnings.specs.Warnings as specs;

use std::alloc::AllocError;

/// The place. Arrays, apps and releases are numbered from 1, and so are the lines of an app's rule.
#[derive(Clone, Copy)]
pub enum WarningPlace {
    Array(usize),
    App(usize),
    Release { app: usize, release: usize },
    Line { app: usize, line: usize },
}

/// What is probably not intended. docs/PROGRAM.md, "check", lists when each kind occurs, and what
/// to do.
#[derive(Clone, Copy)]
pub enum WarningKind {
    /// An appid has an unprintable character.
    UnprintedAppid,
    /// No program or rule uses an array.
    UnusedArray,
    /// Several apps use an array: the numbers of the first two.
    SharedArray {
        first: usize,
        second: usize,
    },
    /// A later release has the same version.
    SameVersion,
    /// A codebase doesn't end in `/`.
    CodebaseSlash,
    /// A codebase begins with neither `https://` nor `http://`.
    CodebaseScheme,
    /// A package of a release has no bytes.
    EmptyFile,
    /// A package's name is empty, begins with `..` or has a blank.
    PackageName,
    /// A test `bucket < number`, or `<=` it, holds for 1 to 99 of the 10,000 buckets.
    FewBuckets {
        up_to: bool,
        number: u32,
        buckets: u64,
    },
    /// The number of such a test is above 10,000, so the test holds for all buckets.
    AllBuckets {
        up_to: bool,
        number: u32,
    },
    /// A take comes before the first test of the version in a `when`.
    TakeBeforeVersion,
    /// A test compares the cohort with a text that begins with `b:` and isn't a reply's.
    NoCohort,
    /// A test compares the day of the request with a day before 2026.
    EarlyDay,
    /// A `when` is never reached.
    NeverReached,
    /// A `when` never holds.
    NeverHolds,
    /// No bucket gets a release, nor a later one.
    NoBucket,
    /// A client that has a release may get it again.
    OfferedAgain,
    /// A client that has a release may get one of a lower version.
    OfferedLower,
    /// A rule would exceed the budget of evaluation.
    NotEvaluated,
}

/// A warning: its place and its kind.
#[derive(Clone, Copy)]
pub struct Warning {
    pub place: WarningPlace,
    pub kind: WarningKind,
}

/// Adds a warning, if `holds` is set.
// open: whether an allocation fails.
pub fn warn_if(
    warnings: &mut Vec<Warning>,
    holds: bool,
    place: WarningPlace,
    kind: WarningKind,
) -> Result<(), AllocError>
    ensures { OnOk result (warnings.new.items
        ≡ warnings.old.items ++ specs.warned_if holds place kind) }
{
    if holds {
        warnings.push(Warning { place, kind })?;
    }
    Ok(())
}
