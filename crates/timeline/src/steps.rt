//! A version's failures over time, in steps of at least 20 installs.

ghost use Rattle.std.specs.Prelude.{◌≤◌, IfOk, OnOk, length};

use crate::marks::added;
use std::alloc::{AllocError, Global};
use std::fmt::Write;

/// The number of installs that a step has at least, if the version has as many.
const ENOUGH: u64 = 20;

/// The height of a strip, in hundredths of a percent.
const WHOLE: u128 = 10000;

/// Installs of a version in the bins from `start` on and before `end`, and how many of them failed.
#[derive(Clone, Copy)]
pub(crate) struct CourseStep {
    pub start: usize,
    pub end: usize,
    pub installs: u64,
    pub failures: u64,
}

/// The steps of a version by its counts in each bin. A step begins with an install and ends with
/// the bin that gives it 20; what is left then joins the last step. Also returns `AllocError` if a
/// number overflows 64 bits.
// open: which steps they are: rows compare pictures.
pub(crate) fn steps_of(
    alloc: Global,
    installs: &[u64],
    failures: &[u64],
) -> Result<Vec<CourseStep>, AllocError> {
    let mut steps = Vec::new(alloc);
    let mut step = begun_at(0);
    for (place, (ended, failed)) in installs.iter().zip(failures.iter()).enumerate() {
        step = step_with(step, place, *ended, *failed)?;
        if step.installs >= ENOUGH {
            steps.push(step)?;
            step = begun_at(step.end);
        }
    }
    if step.installs > 0 {
        join_last(&mut steps, step)?;
    }
    Ok(steps)
}

fn begun_at(place: usize) -> CourseStep {
    CourseStep {
        start: place,
        end: place,
        installs: 0,
        failures: 0,
    }
}

// A step with the counts of one more bin; it begins there if it has no install so far.
fn step_with(
    step: CourseStep,
    place: usize,
    ended: u64,
    failed: u64,
) -> Result<CourseStep, AllocError> {
    let start = if step.installs == 0 {
        place
    } else {
        step.start
    };
    Ok(CourseStep {
        start,
        end: place.saturating_add(1),
        installs: added(step.installs, ended)?,
        failures: added(step.failures, failed)?,
    })
}

// Adds what is left to the last step; without one it is a step.
fn join_last(steps: &mut Vec<CourseStep>, rest: CourseStep) -> Result<(), AllocError> {
    let joined = match steps.pop() {
        Some(last) => CourseStep {
            start: last.start,
            end: rest.end,
            installs: added(last.installs, rest.installs)?,
            failures: added(last.failures, rest.failures)?,
        },
        None => rest,
    };
    steps.push(joined)?;
    Ok(())
}

/// The share of failures of a step, in hundredths of a percent.
pub(crate) fn share_of(step: CourseStep) -> u128 {
    if step.installs == 0 {
        return 0;
    }
    step.failures as u128 * WHOLE / step.installs as u128
}

/// Whether a step is above 5 percent, and at least three failed.
fn is_high(step: CourseStep) -> bool {
    step.failures >= 3 && share_of(step) > 500
}

/// The steps of a version that are drawn: those that are high, those that aren't, or all for
/// `None`. The height of their strip is `top` hundredths of a percent, divided into 10000.
#[derive(Clone, Copy)]
pub(crate) struct DrawnSteps<'a> {
    pub steps: &'a [CourseStep],
    pub high: Option<bool>,
    pub top: u128,
}

/// What is drawn of a step: the area below its share, or only the upper edge of that area, a bar of
/// 2.5 percent of the strip's height.
#[derive(Clone, Copy)]
pub(crate) enum StepShape {
    Area,
    Edge,
}

/// The path of these steps; empty if there is none.
pub(crate) fn path_of_steps(
    alloc: Global,
    drawn: DrawnSteps<'_>,
    shape: StepShape,
) -> Result<String, AllocError> {
    let mut path = String::new(alloc);
    for step in drawn.steps {
        if is_drawn(*step, drawn.high) {
            push_step(&mut path, *step, drawn.top, shape)?;
        }
    }
    Ok(path)
}

fn is_drawn(step: CourseStep, high: Option<bool>) -> bool {
    match high {
        Some(high) => is_high(step) == high,
        None => true,
    }
}

fn push_step(
    path: &mut String,
    step: CourseStep,
    top: u128,
    shape: StepShape,
) -> Result<(), AllocError> {
    let y = WHOLE.saturating_sub(height_of(step, top));
    let (y, down) = match shape {
        StepShape::Area => (y, "V10000"),
        StepShape::Edge => (y.min(9750), "v250"),
    };
    let CourseStep { start, end, .. } = step;
    write!(path, "M{start} {y}H{end}{down}H{start}z")
}

fn height_of(step: CourseStep, top: u128) -> u128 {
    if top == 0 {
        return 0;
    }
    (share_of(step).saturating_mul(WHOLE) / top).min(WHOLE)
}
