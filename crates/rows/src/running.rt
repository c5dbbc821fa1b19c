//! Running the steps of a file of rows.

use crate::background::{Background, start};
use crate::calling::called;
use crate::judging::Count;
use crate::logging::{Handles, Logging};
use crate::loopback::filled_text;
use crate::marks::Mark;
use crate::printed::Row;
use crate::reading::read_steps;
use crate::steps::{Step, WrittenFile};
use anyhow::Result;
use std::io::Error;
use std::thread::Threads;
use std::{fs, io};

/// Ends what was last started in the background, and judges it by the step that started it.
fn end_last<T: Threads>(
    rt: &Logging<T>,
    steps: &[Step],
    row: &Row,
    background: &mut Vec<Background>,
    count: &mut Count,
) -> io::Result<()> {
    let Some(last) = background.pop() else {
        let error = Error::other("nothing runs in the background");
        return count.fail(&rt.rt, row, error);
    };
    let place = last.place;
    let came = last.end(rt, count.wrong != 0);
    let judged = match steps.get(place) {
        Some(Step::Run(started)) => count.judge(&rt.rt, started, &came),
        _ => Ok(()),
    };
    drop(came);
    judged
}

/// Runs a command, or starts or ends it in the background.
fn run_row<T: Handles + 'static>(
    rt: &Logging<T>,
    steps: &[Step],
    place: usize,
    row: &Row,
    background: &mut Vec<Background>,
    count: &mut Count,
) -> io::Result<()> {
    let words = row.words.as_str();
    if matches!(row.mark, Mark::Wait) {
        return end_last(rt, steps, row, background, count);
    }
    if row.mark.begins() {
        return match start(rt, background, place, row.mark, words) {
            Ok(()) => Ok(()),
            Err(error) => count.fail(&rt.rt, row, error),
        };
    }
    let came = called(rt, row.mark, words);
    let judged = count.judge(&rt.rt, row, &came);
    drop(came);
    judged
}

/// Writes a file, and the folder that is in its name.
fn write(rt: &HostRuntime, file: &WrittenFile) -> io::Result<()> {
    if let Some((folder, _name)) = file.name.rsplit_once('/') {
        fs::create_dir_all(rt, folder)?;
    }
    fs::write(rt, file.name.as_str(), file.bytes.as_slice())
}

/// Runs the steps of a file of rows, prints the counts of its rows, and returns whether all are
/// right.
fn run_steps<T: Handles + 'static>(
    rt: &Logging<T>,
    name: &str,
    steps: &[Step],
) -> io::Result<bool> {
    let mut count = Count { rows: 0, wrong: 0 };
    let mut background = Vec::new(rt.rt.alloc());
    for (place, step) in steps.iter().enumerate() {
        let done = match step {
            Step::Write(file) => write(&rt.rt, file),
            Step::Run(row) => run_row(rt, steps, place, row, &mut background, &mut count),
        };
        done?;
    }
    count.show(&rt.rt, name)
}

/// The steps of a file of rows.
fn steps_of(rt: &HostRuntime, name: &str) -> Result<Vec<Step>> {
    let text = fs::read_to_string(rt, name)?;
    let filled = filled_text(rt, text.as_str());
    drop(text);
    let filled = filled?;
    let steps = read_steps(rt.alloc(), filled.as_str());
    drop(filled);
    steps
}

/// Runs the rows of a file, and returns whether all are right.
pub(crate) fn run_file<T: Handles + 'static>(rt: &Logging<T>, name: &str) -> Result<bool> {
    let steps = steps_of(&rt.rt, name)?;
    let are_right = run_steps(rt, name, steps.as_slice());
    drop(steps);
    Ok(are_right?)
}
