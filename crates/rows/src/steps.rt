//! What a file of rows does, step by step, as its lines are read.

use crate::escapes::unescape;
use crate::marks::{Mark, first_word, mark_of};
use crate::printed::{Printed, Row, push_line};
use std::alloc::Global;
use std::io::{self, Error};

/// The bytes of marks, but not of those with which the lines of a text may begin.
const MARKS: &[u8] = b"+%$<|.!=?~";

/// A file that is written.
#[derive(Drop)]
pub(crate) struct WrittenFile {
    pub(crate) name: String,
    pub(crate) bytes: Vec<u8>,
    /// Whether the lines after it are its text.
    is_text: bool,
}

/// What a file of rows does.
#[derive(Drop)]
pub(crate) enum Step {
    Write(WrittenFile),
    /// Runs a command, or does what another mark says.
    Run(Row),
}

/// Adds what a line with this number says to the steps. The line has a mark up to its first space.
pub(crate) fn read_marked(
    alloc: Global,
    steps: &mut Vec<Step>,
    number: usize,
    line: &str,
) -> io::Result<()> {
    let (word, text) = first_word(line);
    let Some(mark) = mark_of(word) else {
        return go_on(steps, line);
    };
    match mark {
        Mark::File => begin_file(alloc, steps, text, "", true),
        Mark::Text => {
            let (name, text) = first_word(text);
            begin_file(alloc, steps, name, text, false)
        }
        Mark::Copies => repeat(alloc, steps, text),
        Mark::Prepare | Mark::Link | Mark::Give | Mark::Wait => {
            begin_command(alloc, steps, number, mark, text, false)
        }
        _ => begin_command(alloc, steps, number, mark, text, true),
    }
}

/// Writes a file, by its name and a text that spells its bytes.
fn begin_file(
    alloc: Global,
    steps: &mut Vec<Step>,
    name: &str,
    text: &str,
    is_text: bool,
) -> io::Result<()> {
    let name = String::from_str(alloc, name)?;
    let bytes = unescape(alloc, text)?;
    let file = WrittenFile {
        name,
        bytes,
        is_text,
    };
    Ok(steps.push(Step::Write(file))?)
}

/// Runs what the mark says, and compares its output if this says so.
fn begin_command(
    alloc: Global,
    steps: &mut Vec<Step>,
    line: usize,
    mark: Mark,
    words: &str,
    is_compared: bool,
) -> io::Result<()> {
    let words = String::from_str(alloc, words)?;
    let row = Row {
        line,
        mark,
        words,
        is_compared,
        wanted: Printed::nothing(alloc),
        parts: Vec::new(alloc),
    };
    Ok(steps.push(Step::Run(row))?)
}

/// Appends a text to the last file as often as the number in front of it says.
fn repeat(alloc: Global, steps: &mut Vec<Step>, text: &str) -> io::Result<()> {
    let (times, text) = first_word(text);
    let Some(Step::Write(file)) = steps.last_mut() else {
        return Err(Error::other("there is no file before it"));
    };
    file.is_text = false;
    match times.parse::<u32>() {
        Ok(times) => extend(alloc, &mut file.bytes, times, text),
        Err(_) => Err(Error::other("it has no number of times")),
    }
}

/// Appends what a text spells as often as this.
fn extend(alloc: Global, bytes: &mut Vec<u8>, times: u32, text: &str) -> io::Result<()> {
    let more = unescape(alloc, text)?;
    for _ in 0..times {
        bytes.extend_from_slice(&more)?;
    }
    Ok(())
}

/// Reads a line that belongs to the last step.
fn go_on(steps: &mut Vec<Step>, line: &str) -> io::Result<()> {
    match steps.last_mut() {
        Some(Step::Write(file)) if file.is_text => push_text(file, line),
        Some(Step::Run(row)) if row.is_compared => want(row, line),
        _ => pass_over(line),
    }
}

/// Adds a line to the text of a file. Whatever begins like a mark is one that lacks its blank.
fn push_text(file: &mut WrittenFile, line: &str) -> io::Result<()> {
    match line.as_bytes() {
        [byte, ..] if MARKS.contains(byte) => {
            Err(Error::other("it is the text of a file, and begins like a mark"))
        }
        _ => Ok(push_line(&mut file.bytes, line)?),
    }
}

/// Adds a line to what a row wants.
fn want(row: &mut Row, line: &str) -> io::Result<()> {
    let (mark, text) = first_word(line);
    match mark {
        "|" => Ok(push_line(&mut row.wanted.out, text)?),
        "!" => Ok(push_line(&mut row.wanted.err, text)?),
        "?" => Ok(row.want_line(text)?),
        "~" => Ok(push_line(&mut row.parts, text)?),
        "." => Ok(row.wanted.out.extend_from_slice(text.as_bytes())?),
        "=" => match text.parse::<u8>() {
            Ok(status) => {
                row.wanted.status = status;
                Ok(())
            }
            Err(_) => Err(Error::other("it has no status")),
        },
        _ => pass_over(line),
    }
}

/// Skips a comment or an empty line, and refuses any other line.
fn pass_over(line: &str) -> io::Result<()> {
    if line.is_empty() || line.starts_with('#') {
        return Ok(());
    }
    Err(Error::other("it has no mark that may come here"))
}
