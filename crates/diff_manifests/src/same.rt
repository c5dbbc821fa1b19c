//! Whether two manifests have the same app: the same rule, or the same program.

ghost use Rattle.std.specs.Prelude.{◌≡◌, Some, length, true};
ghost use Rattle.load.specs.JudgedApps.{IsJudgedApp};
ghost use Rattle.diff_manifests.specs.Apps as specs;
ghost use Rattle.diff_manifests.specs.Same as same;

use crate::arrays::is_same_width;
use bpf_verify::Verified;
use cells::CellArray;
use diff_rules::ContentNumbers;
use flow_check::one_verdict as one_verdict_of_bytes;
use load::{JudgedApp, whole_file};
use rule_lang::one_verdict;

// Whether two arrays are equal, and have the same cells.
fn is_same_array(one: &CellArray, other: &CellArray) -> bool
    ensures { result ≡ true → one.now ≡ other.now }
{
    one.name.as_str() == other.name.as_str()
        && is_same_width(one.width, other.width)
        && one.base == other.base
        && one.length == other.length
        && one.quota == other.quota
}

// Whether arrays with the same number are equal, up to the end of the shorter list.
#[tactic(auto, using(crate::proofs::SameApps::agree_none, crate::proofs::SameApps::agree_past))]
fn agree_on_arrays(arrays: &[CellArray], others: &[CellArray]) -> bool
    ensures agree { result ≡ true → specs.AgreeAsFar arrays.now others.now }
    ensures same { result ≡ true → length arrays.now ≡ length others.now
        → arrays.now ≡ others.now }
{
    let mut left = arrays;
    let mut right = others;
    while let [array, more @ ..] = left {
        let [other, rest @ ..] = right else {
            return true;
        };
        if !is_same_array(array, other) {
            return false;
        }
        left = more;
        right = rest;
    }
    true
}

#[tactic(auto, using(crate::proofs::SameApps::agree_none, crate::proofs::SameApps::agree_past))]
fn agree_on_contents(contents: &[u8], others: &[u8]) -> bool
    ensures { result ≡ true → specs.AgreeAsFar contents.now others.now }
{
    let mut left = contents;
    let mut right = others;
    while let [content, more @ ..] = left {
        let [other, rest @ ..] = right else {
            return true;
        };
        if *content != *other {
            return false;
        }
        left = more;
        right = rest;
    }
    true
}

// Whether the files of two apps are whole, and have the same bytes.
fn has_same_file(old: &JudgedApp, new: &JudgedApp) -> bool
    ensures { result ≡ true → same.HasSameFile old.now new.now }
{
    match (whole_file(&old.sources.kept), whole_file(&new.sources.kept)) {
        (Some(bytes), Some(others)) => bytes == others,
        _ => false,
    }
}

fn has_same_shape(old: &Verified, new: &Verified) -> bool
    ensures { result ≡ true → old.now.shape ≡ new.now.shape }
{
    let (old, new) = (old.shape(), new.shape());
    old.releases() == new.releases()
        && old.arrays().len() == new.arrays().len()
        && agree_on_arrays(old.arrays(), new.arrays())
}

// Whether both apps have one rule, by the text of their files.
#[tactic(auto, using(crate::proofs::SameApps::has_same_rule))]
fn has_same_rule(old: &JudgedApp, new: &JudgedApp) -> bool
    requires old { IsJudgedApp old.now }
    requires new { IsJudgedApp new.now }
    ensures { result ≡ true → same.HasSameRule old.now new.now }
{
    one_verdict();
    match (&old.rule, &new.rule) {
        (Some(_), Some(_)) => has_same_shape(&old.program, &new.program) && has_same_file(old, new),
        _ => false,
    }
}

/// Whether both manifests have the app with one rule, on the same arrays, for the same contents.
#[tactic(auto, using(crate::proofs::SameApps::same_rule))]
pub(crate) fn is_same_rule(old: &JudgedApp, new: &JudgedApp, contents: &ContentNumbers) -> bool
    requires old { IsJudgedApp old.now }
    requires new { IsJudgedApp new.now }
    requires contents { specs.HasContents (Some old.now) (Some new.now) contents.now }
    ensures { result ≡ true → specs.IsSameApp old.now new.now }
{
    contents.old.as_slice() == contents.new.as_slice() && has_same_rule(old, new)
}

/// Whether both manifests have the app with one program, or with rules that are compiled to one.
#[tactic(auto, using(crate::proofs::SameApps::same_program))]
pub(crate) fn is_same_program(old: &JudgedApp, new: &JudgedApp, contents: &ContentNumbers) -> bool
    requires { specs.HasContents (Some old.now) (Some new.now) contents.now }
    ensures { result ≡ true → specs.IsSameApp old.now new.now }
{
    old.program.invariant_law();
    new.program.invariant_law();
    one_verdict_of_bytes(old.program.bytes());
    old.program.bytes() == new.program.bytes()
        && agree_on_contents(&contents.old, &contents.new)
        && agree_on_arrays(old.program.shape().arrays(), new.program.shape().arrays())
}
