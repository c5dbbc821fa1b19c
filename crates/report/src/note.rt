//! Counts a line in the tables.

ghost use Rattle.std.specs.Prelude.{OnOk};
ghost use Rattle.report.specs.Counts.{NotesEach};
ghost use Rattle.report.specs.Events.{event_names};
ghost use Rattle.report.specs.Names as specs;
ghost use Rattle.report.specs.Questions.{names_of};
ghost use Rattle.report.specs.Tallies.{Notes};
ghost use Rattle.report.specs.declared.question.TheConstants.{QUESTIONS};

use crate::app_names::{app_name_of, is_about_app};
use crate::chart_names::note_chart;
use crate::events::note_events;
use crate::line_names::{is_about_line, line_name_of};
use crate::log_line::{LogApp, LogLine};
use crate::question::{AppQuestion, EventQuestion, LineQuestion, QUESTIONS, Question};
use crate::responses::note_responses;
use crate::tally::{Tally, note_nothing};
use json::Scratch;
use std::alloc::{AllocError, Global};

/// Counts a line in the table of each question. The scratch has the texts of one event at a time.
pub(crate) fn note_questions(
    alloc: Global,
    scratch: &mut Scratch,
    drawn: bool,
    tallies: &mut Vec<Tally>,
    line: &LogLine<'_>,
) -> Result<(), AllocError>
    ensures { OnOk result (NotesEach (λ question. names_of drawn question line.now)
        QUESTIONS tallies.old.items tallies.new.items) }
{
    note_each(
        alloc,
        scratch,
        drawn,
        &QUESTIONS,
        tallies.as_mut_slice(),
        line,
    )
}

fn note_each(
    alloc: Global,
    scratch: &mut Scratch,
    drawn: bool,
    questions: &[Question],
    tallies: &mut [Tally],
    line: &LogLine<'_>,
) -> Result<(), AllocError>
    ensures { OnOk result (NotesEach (λ question. names_of drawn question line.now)
        questions.now tallies.old tallies.new) }
{
    let mut left = questions;
    for place in 0..tallies.len() {
        let [question, rest @ ..] = left else {
            return Ok(());
        };
        note_question(alloc, scratch, drawn, *question, &mut tallies[place], line)?;
        left = rest;
    }
    Ok(())
}

fn note_question(
    alloc: Global,
    scratch: &mut Scratch,
    drawn: bool,
    question: Question,
    tally: &mut Tally,
    line: &LogLine<'_>,
) -> Result<(), AllocError>
    ensures { OnOk result (Notes tally.old tally.new (names_of drawn question line.now)) }
{
    match question {
        Question::Line(question) => note_line(alloc, tally, question, line),
        Question::App(question) => note_apps(alloc, tally, question, line),
        Question::Event(question) => note_ends(alloc, scratch, tally, question, line),
        Question::Responses => note_responses(alloc, tally, line),
        Question::Chart(question) => {
            if drawn {
                note_chart(alloc, scratch, tally, question, line)
            } else {
                note_nothing(tally)
            }
        }
    }
}

// Counts the line itself.
fn note_line(
    alloc: Global,
    tally: &mut Tally,
    question: LineQuestion,
    line: &LogLine<'_>,
) -> Result<(), AllocError>
    ensures { OnOk result (Notes tally.old tally.new
        (specs.line_names question line.now)) }
{
    if !is_about_line(question, line) {
        return note_nothing(tally);
    }
    let name = line_name_of(alloc, question, line)?;
    tally.note(name)
}

/// Counts the line's apps.
pub(crate) fn note_apps(
    alloc: Global,
    tally: &mut Tally,
    question: AppQuestion,
    line: &LogLine<'_>,
) -> Result<(), AllocError>
    ensures { OnOk result (Notes tally.old tally.new (specs.app_names question line.now)) }
{
    note_each_app(alloc, tally, question, line, line.apps.as_slice())
}

/// Counts the ends of installs in the line.
pub(crate) fn note_ends(
    alloc: Global,
    scratch: &mut Scratch,
    tally: &mut Tally,
    question: EventQuestion,
    line: &LogLine<'_>,
) -> Result<(), AllocError>
    ensures { OnOk result (Notes tally.old tally.new (event_names question line.now)) }
{
    note_events(alloc, scratch, tally, question, line.apps.as_slice())
}

fn note_each_app(
    alloc: Global,
    tally: &mut Tally,
    question: AppQuestion,
    line: &LogLine<'_>,
    apps: &[LogApp<'_>],
) -> Result<(), AllocError>
    ensures { OnOk result (Notes tally.old tally.new
        (specs.names_of_apps question line.now apps.now)) }
{
    let mut left = apps;
    while let [app, rest @ ..] = left {
        note_app(alloc, tally, question, line, app)?;
        left = rest;
    }
    Ok(())
}

fn note_app(
    alloc: Global,
    tally: &mut Tally,
    question: AppQuestion,
    line: &LogLine<'_>,
    app: &LogApp<'_>,
) -> Result<(), AllocError>
    ensures { OnOk result (Notes tally.old tally.new
        (specs.listed (specs.app_name question line.now app.now))) }
{
    match app.appid {
        Some(appid) => {
            if !is_about_app(question, line, app) {
                return note_nothing(tally);
            }
            let name = app_name_of(alloc, question, line, app, appid)?;
            tally.note(name)
        }
        None => note_nothing(tally),
    }
}
