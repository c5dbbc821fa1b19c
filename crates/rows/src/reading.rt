//! How a file of rows is read. It is a text, and the first word of a line, its mark, says what the
//! line is:
//!
//! ```text
//! -- NAME        writes the file NAME: its text is the lines below, up to the next line with a
//!                mark of a file, a row or a step. No line of it begins with the character of
//!                another mark
//! + NAME TEXT    writes the file NAME with this text, in which ` / ` and `\n` are a line feed, and
//!                `\r`, `\t`, `\\` and `\xHH` one byte each; nothing else ends it
//! copies N TEXT  appends this text, with the same escapes, N times to the last file
//! % WORDS        a command that prepares: it ends with status 0, whatever it prints
//! link NAME TARGET
//!                makes NAME a symbolic link that leads to TARGET
//! $ WORDS        a row: a command, whose status and whole output are compared
//! < NAME         a row: the text of the file NAME, as if a command printed it
//! send PORT NAME
//!                a row: the bytes of the file NAME are sent to this port, and what comes back is
//!                as if a command printed it, with `\r` for a carriage return. If the word `end`
//!                follows, the sending side is ended after them
//! narrow WORDS   a row: a command whose standard output takes only ten bytes, which aren't
//!                compared
//! no-memory      a row: both programs' refusals if memory for words is refused
//! background PORT WORDS
//!                a row: a command that runs in the background up to its line `wait`, which
//!                compares its status and its whole output. The next line waits until something
//!                listens at the port or the command has ended, at most half a minute
//! slowly PORT N NAME
//!                a row: the first N bytes of the file NAME are sent to this port, and the others
//!                half a second later, in the background. Its line `wait`, which may not come
//!                sooner, compares what comes back
//! give PORT NAME
//!                the next client of this port gets the bytes of the file NAME, once it has sent
//!                a line, in the background
//! wait           waits for the end of what was last begun in the background
//! | LINE         a line of its standard output
//! . TEXT         the end of its standard output, without a line feed
//! ! LINE         a line of its standard error
//! = N            its status, if that isn't 0
//! ? LINE         all its output: a line that begins with `refused ` is on standard error, with
//!                status 1; `usage` is `error: ` at the start of standard error, with status 2;
//!                any other line is on standard output, with status 0
//! ~ TEXT         its standard output or its standard error contains this text
//! # TEXT         a comment, but not in the text of a file
//! each           the lines up to `rows` are read once for each line of the table below `rows`,
//! rows           which an empty line ends; in them `<1>` to `<12>` are the columns of that line,
//!                which ` | ` divides, all that the block names and no more; a line of the table
//!                that begins with `# ` is a comment
//! ```
//!
//! Spaces divide the words; two single quotes enclose one word, in which the escapes of `+` hold.
//! If the first word is `rollout` or `rollout-tools`, that program has the command; otherwise the
//! one that knows it. A wanted output in which `...` ends a line begins with what is before the
//! last such mark, and ends with what is after it. All files of one file of rows are in one folder,
//! and stay there until they are written again. A `/` in a file's name makes the folder before it.
//!
//! Each file of rows has a row, each table a line, and whatever begins in the background has a line
//! `wait`. A backslash with anything but an escape after it is an error.
//!
//! In the whole text `<port1>` to `<port12>` are free ports, and with these `<day>` is the number
//! of days from 2007-01-01 to today; in a text without ports `<folder>` is the path of its folder.
//! The log of a server is appended to the file `log`, but its lines of connections to the file
//! `connections`; each line begins after its `"kind":`.

use crate::marks::Mark;
use crate::steps::{Step, read_marked};
use anyhow::{Result, bail};
use std::alloc::{AllocError, Global};
use std::io::{self, Error};

/// How lines are read: plain, as the lines of a block, or as those of its table.
#[derive(Clone, Copy)]
enum Part {
    Plain,
    Block,
    Table,
}

/// The part that a line begins, if it does.
fn part_begun(part: Part, line: &str) -> Option<Part> {
    match (part, line) {
        (Part::Plain, "each") => Some(Part::Block),
        (Part::Block, "rows") => Some(Part::Table),
        (Part::Table, "") => Some(Part::Plain),
        _ => None,
    }
}

/// The names of columns.
const COLUMNS: [&str; 12] = [
    "<1>", "<2>", "<3>", "<4>", "<5>", "<6>", "<7>", "<8>", "<9>", "<10>", "<11>", "<12>",
];

/// A line of a block, in which the names of columns are replaced by these.
fn filled(alloc: Global, line: &str, columns: &[&str]) -> Result<String, AllocError> {
    let mut line = String::from_str(alloc, line)?;
    for (name, column) in COLUMNS.iter().zip(columns.iter()) {
        line = line.replace(alloc, *name, column)?;
    }
    Ok(line)
}

/// Reads a line of a block with these columns.
fn read_filled(
    alloc: Global,
    steps: &mut Vec<Step>,
    number: usize,
    line: &str,
    columns: &[&str],
) -> io::Result<()> {
    let line = filled(alloc, line, columns)?;
    read_marked(alloc, steps, number, line.as_str())
}

/// The number of the last column that a block names.
fn last_column(block: &[&str]) -> usize {
    let mut last: usize = 0;
    for (place, name) in COLUMNS.iter().enumerate() {
        for line in block {
            if (*line).contains(*name) {
                last = place.saturating_add(1);
            }
        }
    }
    last
}

/// Reads a block for a line of its table.
fn read_block(
    alloc: Global,
    steps: &mut Vec<Step>,
    block: &[&str],
    number: usize,
    row: &str,
) -> io::Result<()> {
    if row.starts_with("# ") {
        return Ok(());
    }
    let columns: Vec<&str> = row.split(" | ").collect(alloc)?;
    if columns.len() != last_column(block) {
        return Err(Error::other("it has another number of columns than its block names"));
    }
    for line in block {
        read_filled(alloc, steps, number, line, columns.as_slice())?;
    }
    Ok(())
}

/// Reads the lines of a file of rows.
fn read_lines(alloc: Global, steps: &mut Vec<Step>, text: &str) -> Result<()> {
    let mut block: Vec<&str> = Vec::new(alloc);
    let mut part = Part::Plain;
    let mut is_empty = false;
    for (number, line) in text.lines().enumerate() {
        let number = number.saturating_add(1);
        if let Some(begun) = part_begun(part, line) {
            if is_empty && matches!(part, Part::Table) {
                bail!("line {number}: the table before it has no line")
            }
            is_empty = true;
            part = begun;
            if line == "each" {
                block.clear();
            }
            continue;
        }
        let read: io::Result<()> = match part {
            Part::Plain => read_marked(alloc, steps, number, line),
            Part::Block => match block.push(line) {
                Ok(()) => Ok(()),
                Err(error) => Err(Error::from(error)),
            },
            Part::Table => {
                is_empty = is_empty && line.starts_with("# ");
                read_block(alloc, steps, block.as_slice(), number, line)
            }
        };
        if let Err(error) = read {
            bail!("line {number}: {error}")
        }
    }
    if matches!(part, Part::Block) {
        bail!("the last block has no line `rows`")
    }
    if is_empty && matches!(part, Part::Table) {
        bail!("the last table has no line")
    }
    Ok(())
}

/// Refuses steps without a row, and those that begin something in the background and don't end it.
fn require_ends(steps: &[Step]) -> Result<()> {
    let mut rows: usize = 0;
    let mut begun: usize = 0;
    for step in steps {
        if let Step::Run(row) = step {
            if row.is_compared {
                rows = rows.saturating_add(1);
            }
            let line = row.line;
            if matches!(row.mark, Mark::Wait) {
                if begun == 0 {
                    bail!("line {line}: nothing runs in the background")
                }
                begun = begun.saturating_sub(1);
            } else if row.mark.begins() {
                begun = begun.saturating_add(1);
            }
        }
    }
    if begun > 0 {
        bail!("{begun} lines `wait` are missing")
    }
    if rows == 0 {
        bail!("it has no rows")
    }
    Ok(())
}

/// The steps of a file of rows.
pub(crate) fn read_steps(alloc: Global, text: &str) -> Result<Vec<Step>> {
    let mut steps = Vec::new(alloc);
    read_lines(alloc, &mut steps, text)?;
    require_ends(steps.as_slice())?;
    Ok(steps)
}
