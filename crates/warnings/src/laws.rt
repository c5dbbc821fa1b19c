//! Laws of the definitions, which nothing calls: warnings on a rule are true, and each warning has
//! a name.

ghost use Rattle.warnings.specs.Names.{AllAreNamed};
ghost use Rattle.warnings.specs.Runs.{ReleasesAreSo, TestsAreSo, VersionsAreSo};
ghost use Rattle.warnings.specs.Runs.{WhensAreSo};

/// Law: no run of a rule, for any client and any counter replies, does what a warning on a `when`
/// or on a release denies. Some run does what a warning on a version says. A test holds for the
/// part of the buckets that the warning on it names.
// open: that counters can reply as assumed: 0 each time, also if a rule takes twice from one cell.
pub fn warnings_sound()
    ensures whens { WhensAreSo }
    ensures releases { ReleasesAreSo }
    ensures versions { VersionsAreSo }
    ensures tests { TestsAreSo }
{}

/// Law: `is_warning_name` holds for the name of each kind of warning.
pub fn warnings_are_named()
    ensures { AllAreNamed }
{}
