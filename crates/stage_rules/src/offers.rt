//! Which statements of a rule offer a version.

ghost use Rattle.std.specs.Prelude.{◌≡◌, option_copied};
ghost use Rattle.std.specs.List.{list_any};
ghost use Rattle.std.specs.Str.{bytes_eq};
ghost use Rattle.stage_rules.specs.ReleaseHalts as specs;

use releases::Release;
use rule_lang::Statement;

/// Whether an app has a release of this version, as the manifest writes it.
pub(crate) fn has_release(releases: &[Release], version: &str) -> bool
    ensures { result ≡ list_any (λ release. bytes_eq release.version version.now) releases.now }
{
    let mut left = releases;
    while let [release, others @ ..] = left {
        if release.version() == version {
            return true;
        }
        left = others;
    }
    false
}

fn release_at(releases: &[Release], choice: u8) -> Option<&Release>
    ensures { option_copied result ≡ specs.release_at releases.now choice }
{
    if choice == 0 {
        return None;
    }
    releases.get(choice as usize - 1)
}

fn is_choice(releases: &[Release], version: &str, choice: u8) -> bool
    ensures { result ≡ specs.is_choice releases.now version.now choice }
{
    match release_at(releases, choice) {
        Some(release) => release.version() == version,
        None => false,
    }
}

/// Whether a statement offers a release of this version.
pub(crate) fn offers(releases: &[Release], version: &str, statement: &Statement) -> bool
    ensures { result ≡ specs.offers releases.now version.now statement.now }
{
    match statement {
        Statement::Count { .. } => false,
        Statement::When { release, .. } => is_choice(releases, version, *release),
    }
}

/// Whether a rule offers a release of this version.
pub(crate) fn is_offered(releases: &[Release], version: &str, rule: &[Statement]) -> bool
    ensures { result ≡ list_any (specs.offers releases.now version.now) rule.now }
{
    let mut left = rule;
    while let [statement, others @ ..] = left {
        if offers(releases, version, statement) {
            return true;
        }
        left = others;
    }
    false
}
