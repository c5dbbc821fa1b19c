//! The steps and the loads in a course: lines across its strips, and above them their labels.

ghost use Rattle.std.specs.Prelude.{◌<◌};

use crate::app_panel::PictureSource;
use crate::bins::Bins;
use crate::load_marks::{is_load_among, load_minute, minute_within};
use crate::marks::{first, rest};
use crate::page_strip::{caption, open_label, part_of};
use markup::{Attribute, Class, Document, Tag};
use moments::minute_in;
use std::alloc::{AllocError, Global};
use std::fmt::Write;

/// The number of lines of loads, and of those of steps, that a course has at most.
const MOST_LINES: usize = 20;

/// The longest label, in bytes.
const LONGEST: usize = 24;

/// The width that a byte of a label takes, in tenths of a percent: 7 pixels of 350.
const LETTER: u128 = 20;

/// What a folder says of the times in a course.
#[derive(Clone, Copy)]
pub struct CourseNotes<'a> {
    /// Its steps, the oldest first.
    pub steps: &'a [StepMark<'a>],
    /// The loads that no step explains: of each a report's row with its digest.
    pub unexplained: &'a [&'a str],
}

/// A step that was taken, as a course shows it.
#[derive(Clone, Copy)]
pub struct StepMark<'a> {
    /// When it was taken, in UTC by RFC 3339.
    pub time: &'a str,
    /// What it did, in few words.
    pub label: &'a str,
}

// A line at the left edge of a bin. Its label is the last load's or step's in the bin, between two
// words of ours.
#[derive(Clone, Copy)]
struct Mark<'a> {
    place: u128,
    word: &'static str,
    label: &'a str,
    end: &'static str,
}

/// The lines of a course, as paths.
#[derive(Drop)]
pub(crate) struct CourseLines {
    pub steps: String,
    pub loads: String,
}

/// Draws the labels of steps and of loads, and returns their lines. A bin has one line of each, if
/// they come in the order of their times: a clock that was set back may give it two. A label of
/// over 24 bytes isn't drawn. Only the newest 20 lines of each are drawn, and how many others there
/// are is said.
pub(crate) fn draw_marks(
    alloc: Global,
    page: &mut Document,
    source: &PictureSource<'_>,
    notes: CourseNotes<'_>,
) -> Result<CourseLines, AllocError>
    requires { 0 < source.now.bins.span }
{
    let taken = step_marks(alloc, &source.bins, notes.steps)?;
    let taken = taken.as_slice();
    let loads = load_marks(alloc, source, notes.unexplained)?;
    let loads = loads.as_slice();
    draw_left_out(page, taken.len().saturating_sub(MOST_LINES), "steps");
    draw_left_out(page, loads.len().saturating_sub(MOST_LINES), "loads");
    draw_labels(page, &source.bins, newest(taken));
    draw_labels(page, &source.bins, newest(loads));
    Ok(CourseLines {
        steps: path_of(alloc, newest(taken))?,
        loads: path_of(alloc, newest(loads))?,
    })
}

fn load_marks<'a>(
    alloc: Global,
    source: &PictureSource<'a>,
    unexplained: &[&str],
) -> Result<Vec<Mark<'a>>, AllocError>
    requires { 0 < source.now.bins.span }
{
    let mut marks = Vec::new(alloc);
    for (name, _count) in source.loads.iter() {
        let name = name.as_str();
        if let Some(minute) = load_minute(&source.bins, name) {
            let is_marked = is_load_among(unexplained, name);
            let mark = Mark {
                place: part_of(&source.bins, minute, source.bins.count),
                word: "load ",
                label: first(rest(name)),
                end: if is_marked { ", no step" } else { "" },
            };
            push_mark(&mut marks, mark)?;
        }
    }
    Ok(marks)
}

fn step_marks<'a>(
    alloc: Global,
    bins: &Bins,
    steps: &[StepMark<'a>],
) -> Result<Vec<Mark<'a>>, AllocError>
    requires { 0 < bins.now.span }
{
    let mut marks = Vec::new(alloc);
    for step in steps {
        if let Some(minute) = minute_of(bins, step.time) {
            let mark = Mark {
                place: part_of(bins, minute, bins.count),
                word: "",
                label: step.label,
                end: "",
            };
            push_mark(&mut marks, mark)?;
        }
    }
    Ok(marks)
}

// The minute of a time, if it is within the bins.
fn minute_of(bins: &Bins, time: &str) -> Option<u64> {
    minute_within(bins, minute_in(time)?)
}

// Adds a mark; it replaces one in the same bin.
fn push_mark<'a>(marks: &mut Vec<Mark<'a>>, mark: Mark<'a>) -> Result<(), AllocError> {
    let is_same = match marks.last() {
        Some(last) => last.place == mark.place,
        None => false,
    };
    if is_same {
        let _replaced = marks.pop();
    }
    marks.push(mark)?;
    Ok(())
}

fn newest<'a, 'b>(marks: &'b [Mark<'a>]) -> &'b [Mark<'a>] {
    &marks[marks.len().saturating_sub(MOST_LINES)..]
}

fn path_of(alloc: Global, marks: &[Mark<'_>]) -> Result<String, AllocError> {
    let mut path = String::new(alloc);
    for mark in marks {
        let x = mark.place;
        write!(path, "M{x} 0V10000")?;
    }
    Ok(path)
}

fn draw_left_out(page: &mut Document, lines: usize, what: &str) {
    if lines > 0 {
        caption(
            page,
            format_args!("Lines of earlier {what} that aren't drawn: {lines}"),
        );
    }
}

// The labels, the newest first; none that would cover a newer one.
fn draw_labels(page: &mut Document, bins: &Bins, marks: &[Mark<'_>]) {
    if marks.is_empty() {
        return;
    }
    page.open_as(Tag::Svg, Class::Axis);
    page.attribute(Attribute::Xmlns, "http://www.w3.org/2000/svg");
    page.attribute(Attribute::AriaHidden, "true");
    let mut free: u128 = 1000;
    for mark in marks.iter().rev() {
        free = draw_label(page, bins, *mark, free);
    }
    page.close();
    page.line();
}

// Draws a label at the right of its line, or at its left for want of room there, if it ends at
// `free` at most. Returns its left edge, or else `free`.
fn draw_label(page: &mut Document, bins: &Bins, mark: Mark<'_>, free: u128) -> u128 {
    let letters = mark.word.len().saturating_add(mark.label.len());
    let letters = letters.saturating_add(mark.end.len());
    let x = mark.place.saturating_mul(1000) / bins.count.max(1) as u128;
    let width = LETTER.saturating_mul(letters as u128);
    let is_last = x.saturating_add(width) > 1000;
    let begin = if is_last { x.saturating_sub(width) } else { x };
    if letters > LONGEST || begin.saturating_add(width) > free {
        return free;
    }
    put_label(page, x, if is_last { "end" } else { "start" }, mark);
    begin
}

fn put_label(page: &mut Document, tenths: u128, anchor: &str, mark: Mark<'_>) {
    open_label(page, tenths);
    page.attribute(Attribute::TextAnchor, anchor);
    page.text(mark.word);
    page.text(mark.label);
    page.text(mark.end);
    page.close();
}
