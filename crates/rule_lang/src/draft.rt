//! A draft: a rule that is read up to some token.

ghost use Rattle.std.specs.Prelude.{◌≡◌, OnOk, None};
ghost use Rattle.rule_lang.specs.Named.{pending_as_lists, draft_as_lists};
ghost use Rattle.rule_lang.specs.Reader.Reading as reading;
ghost use Rattle.rule_lang.specs.Trees.{IsCondition};

use crate::condition::{RuleCondition, Step};
use crate::frame::{Frames, first_frame};
use crate::pending::Pending;
use crate::rule::Statement;
use crate::rule_fault::RuleFault;
use std::alloc::{AllocError, Global};
use std::mem;

/// What may come next.
#[derive(Clone, Copy)]
pub enum Mode {
    Statement,
    /// In a condition: a test, `not` or `(`.
    Fact,
    /// In a condition: what follows a fact.
    Operator,
    /// The text has ended.
    Done,
}

/// The statements so far, the current condition, and the first L3 or L4.
#[derive(Drop)]
pub struct Draft {
    pub mode: Mode,
    pub statements: Vec<Statement>,
    pub condition: Pending,
    pub noted: Option<RuleFault>,
}

/// An empty draft.
pub fn first_draft(alloc: Global) -> Draft
    ensures { draft_as_lists result ≡ reading.first_draft }
{
    Draft {
        mode: Mode::Statement,
        statements: Vec::new(alloc),
        condition: Pending {
            steps: Vec::new(alloc),
            below: Frames::new(alloc),
            top: first_frame(),
            depth: 0,
        },
        noted: None,
    }
}

/// Notes a fault, unless an earlier one is noted.
pub fn note(draft: &mut Draft, fault: RuleFault)
    ensures { draft_as_lists draft.new ≡ reading.with_fault fault (draft_as_lists draft.old) }
{
    if draft.noted.is_none() {
        draft.noted = Some(fault);
    }
}

/// Notes a fault, if `holds` is set.
pub fn note_if(draft: &mut Draft, holds: bool, fault: RuleFault)
    ensures { draft_as_lists draft.new ≡ reading.with_fault_if holds fault
        (draft_as_lists draft.old) }
{
    if holds {
        note(draft, fault);
    }
}

/// Adds a statement.
pub fn add(draft: &mut Draft, statement: Statement) -> Result<(), AllocError>
    ensures { OnOk result
        (draft_as_lists draft.new ≡ reading.with_statement statement (draft_as_lists
        draft.old)) }
{
    draft.statements.push(statement)?;
    Ok(())
}

// Takes the steps out of a condition.
fn take_steps(alloc: Global, pending: &mut Pending) -> Vec<Step>
    ensures steps { result.items ≡ pending.old.steps.items }
    ensures emptied { pending_as_lists pending.new
        ≡ reading.emptied (pending_as_lists pending.old) }
{
    mem::replace(&mut pending.steps, Vec::new(alloc))
}

/// Adds the statement whose condition has ended, unless a fault is noted.
pub fn add_when(alloc: Global, draft: &mut Draft, release: u8) -> Result<(), AllocError>
    requires { draft.old.noted ≡ None → IsCondition draft.old.condition.steps.items }
    ensures { OnOk result (draft_as_lists draft.new ≡ reading.with_when release (draft_as_lists
        draft.old)) }
{
    let steps = take_steps(alloc, &mut draft.condition);
    if draft.noted.is_some() {
        return Ok(());
    }
    let condition = RuleCondition::of(steps);
    add(draft, Statement::When { condition, release })
}
