//! All counts of a log, line by line.

ghost use Rattle.std.specs.Prelude.{◌≡◌, [], ◌∷◌, None, Some, IfOk, OnOk};
ghost use Rattle.std.specs.Prelude.{option_and_then, option_map};
ghost use Rattle.json.specs.Value.{value_view};
ghost use Rattle.report.specs.Borrowed.{data_of};
ghost use Rattle.report.specs.Counts as specs;
ghost use Rattle.report.specs.Questions.{AreTallies, tally_named};
ghost use Rattle.report.specs.Reading.{CountsLines};
ghost use Rattle.report.specs.Members.{line_members};
ghost use Rattle.report.specs.Windows.{event_in, event_in_window, event_of, if_within};

use crate::borrowed_json::LineMemory;
use crate::log_events::{is_event, is_within, value_in};
use crate::log_line::LogLine;
use crate::note::note_questions;
use crate::question::{QUESTIONS, Question};
use crate::responses::longest_wait_in;
use crate::tally::Tally;
use crate::window::Window;
use json::{Scratch, Value};
use std::alloc::{AllocError, Global};

/// The numbers of lines, and the table of each question.
#[derive(Drop)]
pub struct Report {
    /// Lines that are counted: the server's, in the window.
    pub lines: u64,
    /// Lines that aren't the server's.
    pub foreign: u64,
    /// Lines that the log lost.
    pub lost: u64,
    /// Apps that lines leave out, and how many of these were offered a release.
    pub left_out: u64,
    pub offers_left_out: u64,
    /// The longest wait of a client for a worker, in microseconds.
    pub longest_wait: u64,
    /// Whether a chart will be drawn. If not, nothing is counted for it.
    pub drawn: bool,
    /// The tables, in the order of `QUESTIONS`.
    pub tallies: Vec<Tally>,
}

impl Report {
    /// A report on no lines; `drawn` says whether a chart will be drawn.
    pub fn new(alloc: Global, drawn: bool) -> Result<Report, AllocError>
        ensures { IfOk result (λ r. (window : Window) → specs.Counts window [] drawn r) }
    {
        let tallies = empty_tallies(alloc, &QUESTIONS)?;
        Ok(Report {
            lines: 0,
            foreign: 0,
            lost: 0,
            left_out: 0,
            offers_left_out: 0,
            longest_wait: 0,
            drawn,
            tallies,
        })
    }

    /// The table of a question.
    pub fn tally(&self, question: Question) -> Option<&Tally>
        ensures { option_map (λ t. t.now) result ≡ specs.tally_of question self.now }
    {
        tally_named(&QUESTIONS, self.tallies.as_slice(), question.member())
    }

    /// Counts a line, given without its line feed. If an allocation fails, the line may be partly
    /// counted.
    #[tactic(auto, using(crate::proofs::Counted::counts_one))]
    pub(crate) fn count_line(
        &mut self,
        alloc: Global,
        memory: &mut LineMemory,
        window: &Window<'_>,
        line: &[u8],
    ) -> Result<(), AllocError>
        ensures { OnOk result (CountsLines window.now (line.now ∷ []) self.old self.new) }
    {
        self.add_line(alloc, memory, window, line)
    }

    fn add_line(
        &mut self,
        alloc: Global,
        memory: &mut LineMemory,
        window: &Window<'_>,
        line: &[u8],
    ) -> Result<(), AllocError>
        ensures { OnOk result
            (specs.AddsLine (event_in line.now) (event_in_window window.now line.now) self.old
            self.new) }
    {
        match value_in(alloc, &mut memory.line, line)? {
            Some(value) => {
                let counted = self.add_value(alloc, &mut memory.event, window, &value);
                drop(value);
                counted
            }
            None => {
                self.add_foreign();
                Ok(())
            }
        }
    }

    #[tactic(auto, using(crate::proofs::Counted::stays, crate::proofs::Counted::each_stays))]
    fn add_foreign(&mut self)
        ensures { specs.AddsLine None None self.old self.new }
    {
        self.foreign = raised(self.foreign, 1);
    }

    // Counts a line, if it is an event.
    fn add_value(
        &mut self,
        alloc: Global,
        scratch: &mut Scratch,
        window: &Window<'_>,
        value: &Value<'_>,
    ) -> Result<(), AllocError>
        ensures { OnOk result (specs.AddsLine (event_of (data_of (value_view value.now)))
            (option_and_then (if_within window.now) (event_of (data_of (value_view value.now))))
            self.old self.new) }
    {
        if is_event(value) {
            return self.add_event(alloc, scratch, window, value);
        }
        self.add_foreign();
        Ok(())
    }

    // Counts an event, if it is in the window.
    fn add_event(
        &mut self,
        alloc: Global,
        scratch: &mut Scratch,
        window: &Window<'_>,
        event: &Value<'_>,
    ) -> Result<(), AllocError>
        ensures { OnOk result (specs.AddsLine
            (Some (line_members (data_of (value_view event.now))))
            (if_within window.now (line_members (data_of (value_view event.now))))
            self.old self.new) }
    {
        if is_within(window, event) {
            let line = LogLine::of(alloc, event)?;
            let counted = self.add(alloc, scratch, &line);
            drop(line);
            return counted;
        }
        Ok(())
    }

    #[tactic(auto, using(crate::proofs::Counted::stays))]
    fn add(
        &mut self,
        alloc: Global,
        scratch: &mut Scratch,
        line: &LogLine<'_>,
    ) -> Result<(), AllocError>
        ensures { OnOk result (specs.AddsLine (Some line.now) (Some line.now) self.old self.new) }
    {
        let lost = lost_in(line);
        let left_out = left_out_in(line);
        let offers = offers_left_out_in(line);
        let longest_wait = longest_wait_in(line);
        self.lines = raised(self.lines, 1);
        self.lost = raised(self.lost, lost);
        self.left_out = raised(self.left_out, left_out);
        self.offers_left_out = raised(self.offers_left_out, offers);
        self.longest_wait = self.longest_wait.max(longest_wait);
        note_questions(alloc, scratch, self.drawn, &mut self.tallies, line)?;
        Ok(())
    }
}

// An empty table for each question.
fn empty_tallies(alloc: Global, questions: &[Question]) -> Result<Vec<Tally>, AllocError>
    ensures { IfOk result (λ tallies. AreTallies (λ _. []) questions.now tallies.items) }
{
    let mut tallies = Vec::with_capacity(alloc, questions.len())?;
    let mut left = questions;
    while let [question, rest @ ..] = left {
        tallies.push(Tally::new(alloc, question.limit()))?;
        left = rest;
    }
    Ok(tallies)
}

// The table of this name.
fn tally_named<'a>(questions: &[Question], tallies: &'a [Tally], name: &str) -> Option<&'a Tally>
    ensures { option_map (λ t. t.now) result
        ≡ tally_named name.now questions.now tallies.now }
{
    let mut asked = questions;
    let mut left = tallies;
    while let [question, more @ ..] = asked {
        let [tally, rest @ ..] = left else {
            return None;
        };
        if question.member() == name {
            return Some(tally);
        }
        asked = more;
        left = rest;
    }
    None
}

// The sum, up to the greatest number.
#[tactic(auto, using(crate::proofs::Counted::capped_sum))]
fn raised(n: u64, by: u64) -> u64
    ensures { specs.GoesUp n result by }
{
    n.saturating_add(by)
}

// How many lines were lost before it.
fn lost_in(line: &LogLine<'_>) -> u64
    ensures { result ≡ specs.lost_in line.now }
{
    if_kind("lost", line, line.lines)
}

// How many apps it leaves out.
fn left_out_in(line: &LogLine<'_>) -> u64
    ensures { result ≡ specs.left_out_in line.now }
{
    if_kind("connection", line, line.left_out)
}

// How many apps with an offer it leaves out.
fn offers_left_out_in(line: &LogLine<'_>) -> u64
    ensures { result ≡ specs.offers_left_out_in line.now }
{
    if_kind("connection", line, line.offers_left_out)
}

// A number of the lines of a kind, or 0.
fn if_kind(kind: &str, line: &LogLine<'_>, number: Option<u64>) -> u64
    ensures { result ≡ specs.if_kind kind.now line.now number }
{
    if line.is_kind(kind) {
        number.unwrap_or(0)
    } else {
        0
    }
}
