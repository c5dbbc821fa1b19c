//! The condition of a row in the words of rules, which reads back.

ghost use Rattle.std.specs.Prelude.{◌≡◌, All, IfOk, IfSome, OnOk, map, string_bytes};
ghost use Rattle.printing.specs.Pushed.{Puts};
ghost use Rattle.diff_space.specs.Lines.{IsLine};
ghost use Rattle.diff_space.specs.Scopes.{Scope};
ghost use Rattle.diff_text.specs.Conditions as conditions;
ghost use Rattle.diff_text.specs.Shown as specs;

use crate::conjuncts::conjuncts_of;
use crate::matching::is_grant;
use crate::read_back::reads_back;
use diff_rules::SegmentSet;
use diff_space::Dimension;
use std::alloc::{AllocError, Global};

fn are_grants(dimensions: &[Dimension], sets: &[SegmentSet]) -> bool
    ensures { result ≡ specs.are_grants dimensions.now sets.now }
{
    let mut left = sets;
    while let [set, others @ ..] = left {
        if !is_grant(dimensions, set) {
            return false;
        }
        left = others;
    }
    true
}

// Appends texts, each after `and`.
fn push_and_texts(text: &mut String, texts: &[String]) -> Result<(), AllocError>
    ensures { OnOk result
        (Puts text.old text.new (conditions.and_texts (map string_bytes texts.now))) }
{
    let mut left = texts;
    while let [one, others @ ..] = left {
        text.push_str(" and ")?;
        text.push_str(one.as_str())?;
        left = others;
    }
    Ok(())
}

// Texts joined by `and`.
fn joined(alloc: Global, texts: &[String]) -> Result<String, AllocError>
    ensures { IfOk result (λ text.
        string_bytes text ≡ conditions.joined (map string_bytes texts.now)) }
{
    let mut all = String::new(alloc);
    let [first, others @ ..] = texts else {
        return Ok(all);
    };
    all.push_str(first.as_str())?;
    push_and_texts(&mut all, others)?;
    Ok(all)
}

/// The texts of the sets that rules can test; none if they don't read back. The days that they name
/// are added to `days`.
pub(crate) fn tests_of(
    alloc: Global,
    days: &mut Vec<u32>,
    dimensions: &[Dimension],
    sets: &[SegmentSet],
) -> Result<Option<Vec<String>>, AllocError>
    ensures { (x : Scope) → All (IsLine x) dimensions.now → IfOk result (λ o. IfSome o (λ texts.
        conditions.ReadBack x dimensions.now (conditions.tested_sets dimensions.now sets.now)
        (map string_bytes texts.items))) }
{
    if are_grants(dimensions, sets) {
        let none = Vec::new(alloc);
        return Ok(Some(none));
    }
    let texts = conjuncts_of(alloc, days, dimensions, sets)?;
    let condition = joined(alloc, &texts)?;
    if reads_back(alloc, dimensions, sets, condition.as_str())? {
        return Ok(Some(texts));
    }
    Ok(None)
}
