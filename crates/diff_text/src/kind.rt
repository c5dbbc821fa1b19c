//! What kind of change a row is.

ghost use Rattle.std.specs.Prelude.{◌≡◌, option_copied};
ghost use Rattle.attrs.specs.Version.{version_of};
ghost use Rattle.diff_text.specs.Kinds as specs;

use attrs::read_version;
use releases::Release;
use rule_eval::compare_versions;
use std::cmp::Ordering;

/// No release any more, or another one: of a lower version, of other content with the same numbers,
/// or of a higher version. Or a release for machines that got none. Rows are in this order.
#[derive(Clone, Copy, Drop)]
pub enum RowKind {
    Lost,
    Older,
    Changed,
    Newer,
    Gain,
}

fn order_of(current: &str, next: &str) -> Ordering
    ensures { result ≡ specs.order_of (version_of current.now) (version_of next.now) }
{
    match (read_version(current), read_version(next)) {
        (Some(current), Some(next)) => compare_versions(current, next),
        _ => Ordering::Equal,
    }
}

impl RowKind {
    /// The kind of a change from one release to another; at least one is there.
    pub(crate) fn of(current: Option<&Release>, next: Option<&Release>) -> RowKind
        ensures { result ≡ specs.kind_of (option_copied current.entry) (option_copied next.entry) }
    {
        match (current, next) {
            (None, _) => RowKind::Gain,
            (Some(_), None) => RowKind::Lost,
            (Some(current), Some(next)) => match order_of(current.version(), next.version()) {
                Ordering::Less => RowKind::Newer,
                Ordering::Equal => RowKind::Changed,
                Ordering::Greater => RowKind::Older,
            },
        }
    }

    /// Whether somebody gets no release any more, or one of a lower version.
    pub fn is_lost(self) -> bool
        ensures { result ≡ specs.is_lost self }
    {
        match self {
            RowKind::Lost | RowKind::Older => true,
            RowKind::Changed | RowKind::Newer | RowKind::Gain => false,
        }
    }

    /// The mark in a table.
    pub(crate) fn mark(self) -> &'static str {
        match self {
            RowKind::Lost | RowKind::Older => "lost",
            RowKind::Changed => "changed",
            RowKind::Newer | RowKind::Gain => "",
        }
    }

    /// The name in JSON.
    pub fn name(self) -> &'static str
        ensures { result.now ≡ specs.name_of self }
    {
        match self {
            RowKind::Lost => "lost",
            RowKind::Older => "older",
            RowKind::Changed => "changed",
            RowKind::Newer => "newer",
            RowKind::Gain => "gain",
        }
    }
}
