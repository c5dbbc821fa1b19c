//! What a rule gives one client that has a release.

ghost use Rattle.std.specs.Prelude.{◌≡◌, IfOk, option_copied};
ghost use Rattle.warnings.specs.Evaluation as specs;

use crate::course::first_offer;
use crate::possible::{Clients, Possible};
use attrs::{Attrs, read_version};
use cells::Shape;
use releases::Release;
use rule_eval::{allows, compare_versions};
use rule_lang::{Comparison, Statement};
use std::alloc::AllocError;

/// An app, its shape, its releases and the statements of its rule.
#[derive(Drop)]
pub struct EvaluatedRule<'a> {
    pub appid: &'a str,
    pub shape: &'a Shape,
    pub releases: &'a [Release],
    pub statements: &'a [Statement],
}

impl<'a> EvaluatedRule<'a> {
    /// Borrows these four.
    pub fn of(
        appid: &'a str,
        shape: &'a Shape,
        releases: &'a [Release],
        statements: &'a [Statement],
    ) -> EvaluatedRule<'a>
        ensures appid { result.appid.now ≡ appid.now }
        ensures shape { result.shape.now ≡ shape.now }
        ensures releases { result.releases.now ≡ releases.now }
        ensures rule { result.statements.now ≡ statements.now }
    {
        EvaluatedRule {
            appid,
            shape,
            releases,
            statements,
        }
    }
}

fn release_compares(by: Comparison, release: Option<&Release>, version: &str) -> bool
    ensures { result ≡ specs.release_compares by (option_copied release.entry) version.now }
{
    let Some(release) = release else {
        return false;
    };
    match (read_version(release.version()), read_version(version)) {
        (Some(v), Some(w)) => allows(by, compare_versions(v, w)),
        _ => false,
    }
}

// Whether the choice is a release whose version compares by `by` with this version.
#[tactic(auto, using(crate::proofs::Found::got_at))]
fn choice_compares(by: Comparison, releases: &[Release], version: &str, choice: u8) -> bool
    ensures { result ≡ specs.choice_compares by releases.now version.now choice }
{
    if choice == 0 {
        return false;
    }
    release_compares(by, releases.get(choice as usize - 1), version)
}

/// Whether the rule ends with a release whose version compares by `by` with this version, for one
/// client. Each counter replies 0.
pub(crate) fn gets(
    stack: &mut Vec<Possible>,
    evaluated: &EvaluatedRule<'_>,
    by: Comparison,
    version: &str,
    attrs: &Attrs,
) -> Result<bool, AllocError>
    ensures { IfOk result (λ yes.
        yes ≡ specs.gets (specs.rule_of evaluated.now) by version.now Clients.One attrs.now) }
{
    let choice = first_offer(
        stack,
        Clients::One,
        attrs,
        evaluated.shape,
        evaluated.statements,
    )?;
    Ok(choice_compares(by, evaluated.releases, version, choice))
}
