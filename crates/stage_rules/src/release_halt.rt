//! Halting one release: the text of a rule without the statements that offer its version.

ghost use Rattle.std.specs.Prelude.{◌≡◌, IfErr, IfOk, Ok, true, string_bytes};
ghost use Rattle.std.specs.List.{list_any};
ghost use Rattle.std.specs.Str.{bytes_eq};
ghost use Rattle.rule_lang.specs.Verdicts.{IsVerdict};
ghost use Rattle.stage_rules.specs.ReleaseHalts.{IsWithout, IsWithoutFault};
ghost use Rattle.stage_rules.specs.ReleaseHalts as specs;

use crate::leaving_out::text_without;
use crate::offers::{has_release, is_offered};
use crate::same_rule::is_rule_without;
use crate::without_fault::WithoutFault;
use cells::Shape;
use releases::Release;
use rule_lang::{Rule, RuleFault, parse};
use std::alloc::{AllocError, Global};

/// The text of a rule without its `when`s that offer a release of this version: each is cut out
/// from `when` to `;`, and only its line ends stay. All other bytes stay. It is the same text if
/// there is no such `when`. Faults:
///
/// - `NoRelease`: none of the releases has this version, as the manifest writes it;
/// - `NoRule`: L1 to L4 of `parse`;
/// - `NotFound`: a `when` of over 65000 bytes.
///
/// Returns `Memory` if an allocation fails. `shape` and `releases` are those of one app.
// open: whether an allocation fails, whether `NotFound` is returned of a rule of short statements,
// and which fault is returned if several hold.
pub fn rule_without(
    alloc: Global,
    text: &str,
    shape: &Shape,
    releases: &[Release],
    version: &str,
) -> Result<String, WithoutFault>
    ensures without { IfOk result (λ new.
        IsWithout shape.now releases.now version.now text.now (string_bytes new)) }
    ensures fault { IfErr result
        (IsWithoutFault shape.now releases.now version.now text.now) }
{
    if !has_release(releases, version) {
        return Err(WithoutFault::NoRelease);
    }
    match parse(alloc, text, shape) {
        Ok(rule) => without_of(alloc, text, shape, &rule, releases, version),
        Err(RuleFault::Memory) => Err(WithoutFault::Memory),
        Err(fault) => Err(WithoutFault::NoRule(fault)),
    }
}

// The text of this rule, without them.
fn without_of(
    alloc: Global,
    text: &str,
    shape: &Shape,
    rule: &Rule,
    releases: &[Release],
    version: &str,
) -> Result<String, WithoutFault>
    requires was { IsVerdict shape.now text.now (Ok rule.now) }
    requires released { list_any (λ release. bytes_eq release.version version.now) releases.now
        ≡ true }
    ensures without { IfOk result (λ new.
        IsWithout shape.now releases.now version.now text.now (string_bytes new)) }
    ensures fault { IfErr result
        (IsWithoutFault shape.now releases.now version.now text.now) }
{
    if !is_offered(releases, version, rule.statements()) {
        return Ok(String::from_str(alloc, text)?);
    }
    let new = text_without(alloc, text, shape, releases, version)?;
    if reads_without(alloc, new.as_str(), shape, rule, releases, version)? {
        return Ok(new);
    }
    Err(WithoutFault::NotFound)
}

// Whether a text is a rule that is another one without these statements.
fn reads_without(
    alloc: Global,
    text: &str,
    shape: &Shape,
    rule: &Rule,
    releases: &[Release],
    version: &str,
) -> Result<bool, AllocError>
    ensures { IfOk result (λ ok. ok ≡ true → IsVerdict shape.now text.now
        (Ok (specs.without releases.now version.now rule.now))) }
{
    match parse(alloc, text, shape) {
        Ok(new) => Ok(is_rule_without(releases, version, rule.statements(), new.statements())),
        Err(RuleFault::Memory) => Err(AllocError),
        Err(_) => Ok(false),
    }
}
