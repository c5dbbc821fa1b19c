//! The counters that a text spells.

ghost use Rattle.std.specs.Prelude.{◌≡◌, ◌+◌, ◌<◌, ◌^◌, ℕ, [], length, Err, IfOk, Ok, map};
ghost use Rattle.std.specs.Prelude.{string_bytes};
ghost use Rattle.cells.specs.Events.{AreCells, AreZeros};
ghost use Rattle.counters_file.specs.Lines.{counters};
ghost use Rattle.counters_file.specs.Text as specs;

use crate::contents::{Contents, ReadFault};
use crate::fields::add_line;
use crate::halted::halted_in;
use cells::{CellNo, Directory};
use declarations::parts_of;
use std::alloc::{AllocError, Global};

/// What the text of a file says. The lines of halted apps come first. An array that an earlier line
/// declared is wrong, and so is a second value of a counter, or one that doesn't fit it.
// open: whether an allocation fails.
pub fn read_contents(alloc: Global, text: &str) -> Result<Contents, ReadFault>
    ensures read { IfOk result (λ c. specs.contents_in text.now ≡ Ok c) }
    ensures cells { IfOk result (λ c. AreCells c.counters.values) }
    ensures damaged { (line : ℕ) → result ≡ Err (ReadFault.Damaged line)
        → specs.contents_in text.now ≡ Err line }
{
    match parts_of(alloc, text, '\n') {
        Ok(lines) => read_lines(alloc, &lines),
        Err(_) => Err(ReadFault::Memory),
    }
}

fn read_lines(alloc: Global, lines: &[&str]) -> Result<Contents, ReadFault>
    ensures read { IfOk result (λ c.
        specs.contents_of (map (λ line. line.now) lines.now) ≡ Ok c) }
    ensures cells { IfOk result (λ c. AreCells c.counters.values) }
    ensures damaged { (line : ℕ) → result ≡ Err (ReadFault.Damaged line)
        → specs.contents_of (map (λ line. line.now) lines.now) ≡ Err line }
{
    let [first, others @ ..] = lines else {
        return Err(ReadFault::Damaged { line: 1 });
    };
    if *first != "rollout counters 1" {
        return Err(ReadFault::Damaged { line: 1 });
    }
    read_after_heading(alloc, others)
}

fn read_after_heading(alloc: Global, lines: &[&str]) -> Result<Contents, ReadFault>
    ensures read { IfOk result (λ c.
        specs.after_heading (map (λ line. line.now) lines.now) ≡ Ok c) }
    ensures cells { IfOk result (λ c. AreCells c.counters.values) }
    ensures damaged { (line : ℕ) → result ≡ Err (ReadFault.Damaged line)
        → specs.after_heading (map (λ line. line.now) lines.now) ≡ Err line }
{
    let [state, others @ ..] = lines else {
        return Err(ReadFault::Damaged { line: 2 });
    };
    match state_of(state) {
        Some(was_stopped) => read_after_state(alloc, was_stopped, others),
        None => Err(ReadFault::Damaged { line: 2 }),
    }
}

fn state_of(line: &str) -> Option<bool>
    ensures { result ≡ specs.state_of line.now }
{
    if line == "stopped" {
        Some(true)
    } else if line == "serving" {
        Some(false)
    } else {
        None
    }
}

// Reads the lines of halted apps, and then all others.
fn read_after_state(alloc: Global, was_stopped: bool, lines: &[&str]) -> Result<Contents, ReadFault>
    ensures read { IfOk result (λ c.
        specs.contents_from was_stopped 3 (map (λ line. line.now) lines.now) [] ≡ Ok c) }
    ensures cells { IfOk result (λ c. AreCells c.counters.values) }
    ensures damaged { (line : ℕ) → result ≡ Err (ReadFault.Damaged line)
        → specs.contents_from was_stopped 3 (map (λ line. line.now) lines.now) [] ≡ Err line }
{
    let mut halted = Vec::new(alloc);
    let mut left = lines;
    let mut next = 3;
    while let [line, others @ ..] = left {
        let appid = match halted_in(alloc, line) {
            Ok(Some(appid)) => appid,
            Ok(None) => return read_counters(alloc, was_stopped, halted, left, next),
            Err(_) => return Err(ReadFault::Memory),
        };
        let Ok(()) = halted.push(appid) else {
            return Err(ReadFault::Memory);
        };
        left = others;
        next += 1;
    }
    Err(ReadFault::Damaged { line: next })
}

// Reads the lines from this number on, which are of arrays and counters.
fn read_counters(
    alloc: Global,
    was_stopped: bool,
    halted: Vec<String>,
    lines: &[&str],
    number: usize,
) -> Result<Contents, ReadFault>
    requires { number + length lines.now < 2 ^ 64 }
    ensures read { IfOk result (λ c. specs.with_counters was_stopped (map string_bytes halted.items)
        (specs.counters_from number (map (λ line. line.now) lines.now) specs.nothing) ≡ Ok c) }
    ensures cells { IfOk result (λ c. AreCells c.counters.values) }
    ensures damaged { (line : ℕ) → result ≡ Err (ReadFault.Damaged line)
        → specs.with_counters was_stopped (map string_bytes halted.items)
        (specs.counters_from number (map (λ line. line.now) lines.now) specs.nothing) ≡ Err line }
{
    let mut directory = Directory::new(alloc);
    let Ok(mut values) = zeros(alloc) else {
        return Err(ReadFault::Memory);
    };
    read_each(alloc, lines, number, &mut directory, &mut values)?;
    Ok(Contents {
        was_stopped,
        halted,
        directory,
        values,
    })
}

// The values of 8192 cells that are 0.
fn zeros(alloc: Global) -> Result<Vec<u64>, AllocError>
    ensures zeros { IfOk result (λ v. v.items ≡ specs.zeros) }
    ensures cells { IfOk result (λ v. AreCells v.items) }
{
    let values = zeros_of(alloc, CellNo::COUNT as usize)?;
    Ok(values)
}

fn zeros_of(alloc: Global, count: usize) -> Result<Vec<u64>, AllocError>
    ensures { IfOk result (λ v. AreZeros count v.items) }
{
    Vec::from_elem(alloc, 0, count)
}

// Reads the lines from this number on.
fn read_each(
    alloc: Global,
    lines: &[&str],
    first: usize,
    directory: &mut Directory,
    values: &mut [u64],
) -> Result<(), ReadFault>
    requires cells { AreCells values.old }
    requires few { first + length lines.now < 2 ^ 64 }
    ensures read { let old = counters directory.old values.old in
        IfOk result (λ _. specs.counters_from first (map (λ line. line.now) lines.now) old
        ≡ Ok (counters directory.new values.new)) }
    ensures cells { AreCells values.new }
    ensures damaged { let old = counters directory.old values.old in
        (line : ℕ) → result ≡ Err (ReadFault.Damaged line)
        → specs.counters_from first (map (λ line. line.now) lines.now) old ≡ Err line }
{
    let mut left = lines;
    let mut number = first;
    while let [line, others @ ..] = left {
        if is_over(line, others) {
            return Ok(());
        }
        match add_line(alloc, line, directory, values) {
            Ok(true) => {}
            Ok(false) => return Err(ReadFault::Damaged { line: number }),
            Err(_) => return Err(ReadFault::Memory),
        }
        left = others;
        number += 1;
    }
    Err(ReadFault::Damaged { line: number })
}

// Whether a line is the ending, and only its line feed follows.
fn is_over(line: &str, others: &[&str]) -> bool
    ensures { result ≡ specs.is_over line.now (map (λ other. other.now) others.now) }
{
    match others {
        [last] => last.is_empty() && line == "end",
        _ => false,
    }
}
