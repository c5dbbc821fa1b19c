//! The quotas of a rule: the cells from which it takes, and how many takes each grants.

ghost use Rattle.std.specs.Prelude.{◌≡◌, All, IfOk, IfSome, OnOk, option_copied};
ghost use Rattle.folder_facts.specs.Offered.{IsQuotaIn};
ghost use Rattle.folder_facts.specs.Offered as specs;

use declarations::ArrayDeclaration;
use report_page::OfferedQuota;
use rule_lang::{Rule, RuleCondition, Statement, Step, Test};
use std::alloc::{AllocError, Global};

// The first array with this name.
fn array_named<'a>(arrays: &'a [ArrayDeclaration], name: &str) -> Option<&'a ArrayDeclaration>
    ensures { option_copied result ≡ specs.array_named arrays.now name.now }
{
    let mut left = arrays;
    while let [array, others @ ..] = left {
        if array.name() == name {
            return Some(array);
        }
        left = others;
    }
    None
}

fn has_cell(quotas: &[OfferedQuota], array: &str, index: u16) -> bool {
    for quota in quotas {
        if quota.array.as_str() == array && quota.index == u64::from(index) {
            return true;
        }
    }
    false
}

// Adds the quota of a cell, unless it is among these already.
fn push_quota(
    alloc: Global,
    arrays: &[ArrayDeclaration],
    array: &str,
    index: u16,
    quotas: &mut Vec<OfferedQuota>,
) -> Result<(), AllocError>
    ensures { All (IsQuotaIn arrays.now) quotas.old.items
        → OnOk result (All (IsQuotaIn arrays.now) quotas.new.items) }
{
    if has_cell(quotas.as_slice(), array, index) {
        return Ok(());
    }
    if let Some(quota) = quota_in(alloc, arrays, array, index)? {
        quotas.push(quota)?;
    }
    Ok(())
}

// The quota of a cell, if its array is declared with one, and has the cell.
#[tactic(auto, using(crate::proofs::CellQuotas::quota_found))]
fn quota_in(
    alloc: Global,
    arrays: &[ArrayDeclaration],
    array: &str,
    index: u16,
) -> Result<Option<OfferedQuota>, AllocError>
    ensures { IfOk result (λ found. IfSome found (IsQuotaIn arrays.now)) }
{
    let Some(declared) = array_named(arrays, array) else {
        return Ok(None);
    };
    let Some(limit) = declared.quota() else {
        return Ok(None);
    };
    if index >= declared.length() {
        return Ok(None);
    }
    Ok(Some(OfferedQuota {
        array: String::from_str(alloc, array)?,
        index: u64::from(index),
        limit,
    }))
}

// Adds the quotas of the cells from which a condition takes.
fn push_condition(
    alloc: Global,
    arrays: &[ArrayDeclaration],
    condition: &RuleCondition,
    quotas: &mut Vec<OfferedQuota>,
) -> Result<(), AllocError>
    ensures { All (IsQuotaIn arrays.now) quotas.old.items
        → OnOk result (All (IsQuotaIn arrays.now) quotas.new.items) }
{
    let mut left = condition.steps();
    while let [step, others @ ..] = left {
        if let Step::Test {
            test: Test::Take { array, index },
            ..
        } = step
        {
            push_quota(alloc, arrays, array.as_str(), *index, quotas)?;
        }
        left = others;
    }
    Ok(())
}

/// The quota of each cell from which a rule takes, as these arrays declare it, in the order of the
/// takes.
// open: that none is left out: rows.
pub(crate) fn quotas_of(
    alloc: Global,
    arrays: &[ArrayDeclaration],
    rule: &Rule,
) -> Result<Vec<OfferedQuota>, AllocError>
    ensures { IfOk result (λ quotas. All (IsQuotaIn arrays.now) quotas.items) }
{
    let mut quotas = Vec::new(alloc);
    let mut left = rule.statements();
    while let [statement, others @ ..] = left {
        if let Statement::When { condition, .. } = statement {
            push_condition(alloc, arrays, condition, &mut quotas)?;
        }
        left = others;
    }
    Ok(quotas)
}
