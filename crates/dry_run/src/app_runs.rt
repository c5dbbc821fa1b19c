//! How an app's program makes its choice, on counters of one thread: by its rule, line by line; or,
//! if it isn't a rule's, by a run, step by step.

ghost use Rattle.std.specs.Prelude.{IfOk, Some, None};
ghost use Rattle.dry_run.specs.Courses as specs;
ghost use Rattle.dry_run.specs.Meanings.{HasMeaning};

use attrs::Attrs;
use bpf_verify::Verified;
use cells::PlainPass;
use rule_lang::Rule;
use std::alloc::{AllocError, Global};
use std::sync::Arc;
use trace::{Jump, TracedRun, trace_on};
use why_choice::explain_rule;

/// How a program makes its choice.
#[derive(Drop)]
pub(crate) enum ChoiceCourse {
    /// By its rule, line by line.
    ByRule(String),
    /// By a run of this many instructions, with this last jump, if it isn't a rule's.
    ByRun { count: u32, last_jump: Option<Jump> },
}

/// A program's choice, and the explanation of it.
#[derive(Drop)]
pub(crate) struct ExplainedChoice {
    pub choice: u8,
    pub course: ChoiceCourse,
}

/// How a program makes its choice.
pub(crate) fn explain_course(
    alloc: Global,
    program: &Verified,
    rule: &Option<Rule>,
    attrs: Attrs,
    counters: &mut PlainPass,
) -> Result<ExplainedChoice, AllocError>
    requires { HasMeaning program.now rule.now }
    ensures { IfOk result (λ c. specs.ExplainsCourse program.now rule.now attrs counters.old
        c.choice counters.new c.course) }
{
    match rule {
        Some(rule) => explain_meaning(alloc, program, rule, &attrs, counters),
        None => explain_run(alloc, program, attrs, counters),
    }
}

// By its rule.
#[tactic(auto, using(crate::proofs::WholeRuns::by_meaning))]
fn explain_meaning(
    alloc: Global,
    program: &Verified,
    rule: &Rule,
    attrs: &Attrs,
    counters: &mut PlainPass,
) -> Result<ExplainedChoice, AllocError>
    requires { HasMeaning program.now (Some rule.now) }
    ensures { IfOk result (λ c. specs.ExplainsCourse program.now (Some rule.now) attrs.now
        counters.old c.choice counters.new c.course) }
{
    program.invariant_law();
    attrs.invariant_law();
    let mut text = String::new(alloc);
    let choice = explain_rule(alloc, &mut text, attrs, program.shape(), rule, counters)?;
    let course = ChoiceCourse::ByRule(text);
    Ok(ExplainedChoice { choice, course })
}

// By a run.
fn explain_run(
    alloc: Global,
    program: &Verified,
    attrs: Attrs,
    counters: &mut PlainPass,
) -> Result<ExplainedChoice, AllocError>
    ensures { IfOk result (λ c. specs.ExplainsCourse program.now None attrs counters.old c.choice
        counters.new c.course) }
{
    let Ok(attrs) = Arc::new(alloc, attrs) else {
        return Err(AllocError);
    };
    let TracedRun {
        text: _steps,
        choice,
        count,
        last_jump,
    } = trace_on(alloc, program, attrs, counters)?;
    let course = ChoiceCourse::ByRun { count, last_jump };
    Ok(ExplainedChoice { choice, course })
}
