//! For each statement of a rule: whether a client reaches it, and whether it may end the rule.

ghost use Rattle.std.specs.Prelude.{◌≡◌, ◌<◌, length, map, true, IfOk, OnOk};
ghost use Rattle.std.specs.Prelude.{◌&&◌, if◌then◌else◌, slice_set};
ghost use Rattle.std.specs.List.{list_all};
ghost use Rattle.warnings.specs.Evaluation.{rule_of, someone};
ghost use Rattle.warnings.specs.Marks.{AreMarked, Crowd, nobody, with_buckets, with_one};
ghost use Rattle.warnings.specs.Marks as specs;

use crate::course::{offered, statement_possible};
use crate::evaluating::EvaluatedRule;
use crate::possible::{Clients, Possible};
use crate::spot::Spot;
use attrs::{Attrs, Bucket};
use rule_lang::Statement;
use std::alloc::{AllocError, Global};

// Each client walks through the rule once, and marks the statements up to the one that ends the
// rule for it. So each step of a rule is evaluated once for each bucket and spot. Separate
// evaluations of each statement would repeat all statements before it.

/// Two marks for each statement: some client reaches it, and it may end the rule for some client. A
/// `count` has both.
#[derive(Drop)]
pub(crate) struct Marks {
    pub reached: Vec<bool>,
    pub ends: Vec<bool>,
}

fn mark_place(reached: &mut [bool], ends: &mut [bool], place: usize, holds: bool)
    requires reached { place < length reached.old }
    requires ends { place < length ends.old }
    ensures reached { reached.new ≡ slice_set reached.old place true }
    ensures ends { ends.new ≡ (if holds then slice_set ends.old place true else ends.old) }
{
    reached[place] = true;
    if holds {
        ends[place] = true;
    }
}

// Adds the marks of one more client.
fn mark_way(
    stack: &mut Vec<Possible>,
    evaluated: &EvaluatedRule<'_>,
    clients: Clients,
    attrs: &Attrs,
    reached: &mut [bool],
    ends: &mut [bool],
) -> Result<(), AllocError>
    requires reached { length reached.old ≡ length evaluated.now.statements.now }
    requires ends { length ends.old ≡ length evaluated.now.statements.now }
    ensures { (crowd : Crowd) → AreMarked (rule_of evaluated.now) crowd reached.old ends.old
        → OnOk result (AreMarked (rule_of evaluated.now) (with_one crowd clients attrs.now)
        reached.new ends.new) }
{
    let mut place = 0;
    let mut left = evaluated.statements;
    while let [statement, others @ ..] = left {
        let possible = statement_possible(stack, clients, attrs, evaluated.shape, statement)?;
        mark_place(reached, ends, place, possible.holds);
        if !possible.fails {
            return Ok(());
        }
        place += 1;
        left = others;
    }
    Ok(())
}

fn all_set(marks: &[bool]) -> bool
    ensures { result ≡ list_all (λ mark. mark) marks.now }
{
    let mut left = marks;
    while let [mark, others @ ..] = left {
        if !*mark {
            return false;
        }
        left = others;
    }
    true
}

// Whether all marks are set, so that no other client changes them.
fn are_settled(reached: &[bool], ends: &[bool]) -> bool
    ensures { result ≡ (list_all (λ mark. mark) ends.now && list_all (λ mark. mark) reached.now) }
{
    all_set(ends) && all_set(reached)
}

// Adds the marks of the clients of each bucket whose version lies at `spot`.
fn mark_buckets(
    alloc: Global,
    evaluated: &EvaluatedRule<'_>,
    spot: Spot,
    reached: &mut [bool],
    ends: &mut [bool],
) -> Result<(), AllocError>
    requires reached { length reached.old ≡ length evaluated.now.statements.now }
    requires ends { length ends.old ≡ length evaluated.now.statements.now }
    ensures { (crowd : Crowd) → AreMarked (rule_of evaluated.now) crowd reached.old ends.old
        → OnOk result
        (AreMarked (rule_of evaluated.now) (with_buckets (rule_of evaluated.now) crowd spot)
        reached.new ends.new) }
{
    let Ok(mut attrs) = Attrs::plain(alloc, evaluated.appid, None, 0) else {
        return Err(AllocError);
    };
    let mut stack = Vec::new(alloc);
    let mut bucket = 0;
    while bucket < Bucket::COUNT {
        if are_settled(reached, ends) {
            return Ok(());
        }
        let place = Bucket::new(bucket);
        attrs = attrs.in_bucket(place);
        mark_way(
            &mut stack,
            evaluated,
            Clients::AllAt(spot),
            &attrs,
            reached,
            ends,
        )?;
        bucket += 1;
    }
    Ok(())
}

fn mark_spots(
    alloc: Global,
    evaluated: &EvaluatedRule<'_>,
    spots: &[Spot],
    reached: &mut [bool],
    ends: &mut [bool],
) -> Result<(), AllocError>
    requires { AreMarked (rule_of evaluated.now) nobody reached.old ends.old }
    ensures { OnOk result
        (AreMarked (rule_of evaluated.now) (someone (rule_of evaluated.now) spots.now)
        reached.new ends.new) }
{
    let mut left = spots;
    while let [spot, others @ ..] = left {
        mark_buckets(alloc, evaluated, *spot, reached, ends)?;
        left = others;
    }
    Ok(())
}

fn is_count(statement: &Statement) -> bool
    ensures { result ≡ specs.is_count statement.now }
{
    match statement {
        Statement::Count { .. } => true,
        Statement::When { .. } => false,
    }
}

// The marks before the first client.
fn unmarked(alloc: Global, statements: &[Statement]) -> Result<Vec<bool>, AllocError>
    ensures { IfOk result (λ v. v.items ≡ map specs.is_count statements.now) }
{
    let mut marks = Vec::new(alloc);
    let mut left = statements;
    while let [statement, others @ ..] = left {
        marks.push(is_count(statement))?;
        left = others;
    }
    Ok(marks)
}

/// The marks of a rule, for all clients whose versions lie at one of these spots.
pub(crate) fn marks_of(
    alloc: Global,
    evaluated: &EvaluatedRule<'_>,
    spots: &[Spot],
) -> Result<Marks, AllocError>
    ensures { IfOk result (λ marks. AreMarked (rule_of evaluated.now)
        (someone (rule_of evaluated.now) spots.now) marks.reached.items marks.ends.items) }
{
    let mut reached = unmarked(alloc, evaluated.statements)?;
    let mut ends = unmarked(alloc, evaluated.statements)?;
    mark_spots(
        alloc,
        evaluated,
        spots,
        reached.as_mut_slice(),
        ends.as_mut_slice(),
    )?;
    Ok(Marks { reached, ends })
}

/// Whether a statement that may end the rule gives this release or a later one.
pub(crate) fn is_given(ends: &[bool], statements: &[Statement], release: usize) -> bool
    ensures { result ≡ specs.is_given ends.now statements.now release }
{
    let mut left = statements;
    let mut marks = ends;
    while let [statement, others @ ..] = left {
        let [ended, behind @ ..] = marks else {
            return false;
        };
        if *ended && release <= offered(statement) as usize {
            return true;
        }
        left = others;
        marks = behind;
    }
    false
}
