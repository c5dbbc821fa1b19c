//! A whole script, line by line.

ghost use Rattle.std.specs.Prelude.{◌≡◌, Err, IfOk, IfErr, map, true};
ghost use Rattle.std.specs.Str.Lines.{lines};
ghost use Rattle.event_script.specs.Script as specs;

use crate::script_fault::ScriptFault;
use crate::script_line::{EventLine, LineFault, read_event};
use std::alloc::{AllocError, Global};
use std::str;

/// The events of a script, in order, or the first line that is malformed.
// open: whether an allocation fails.
pub fn read_script(alloc: Global, bytes: &[u8]) -> Result<Vec<EventLine>, ScriptFault>
    ensures script { IfOk result (λ v. specs.IsScript bytes.now v.items) }
    ensures fault { IfErr result (specs.IsScriptFault bytes.now) }
{
    let Ok(text) = str::from_utf8(bytes) else {
        return Err(ScriptFault::Malformed { line: 1 });
    };
    match lines(alloc, text) {
        Ok(lines) => read_lines(alloc, &lines),
        Err(_) => Err(ScriptFault::Memory),
    }
}

fn lines<'a>(alloc: Global, text: &'a str) -> Result<Vec<&'a str>, AllocError>
    ensures { IfOk result (λ v. map (λ line. line.now) v.items ≡ lines text.now) }
{
    text.lines().collect(alloc)
}

fn read_lines(alloc: Global, lines: &[&str]) -> Result<Vec<EventLine>, ScriptFault>
    ensures events { IfOk result
        (λ v. specs.AreEventLines (map (λ line. line.now) lines.now) v.items) }
    ensures fault { IfErr result (specs.IsFirstMalformed (map (λ line. line.now) lines.now)) }
{
    let mut events = Vec::new(alloc);
    let mut number = 1;
    let mut rest = lines;
    while let [line, more @ ..] = rest {
        match read_line(alloc, line) {
            Ok(None) => {}
            Ok(Some(event)) => events.push(event).map_err(|_| ScriptFault::Memory)?,
            Err(LineFault::Malformed) => return Err(ScriptFault::Malformed { line: number }),
            Err(LineFault::Memory) => return Err(ScriptFault::Memory),
        }
        number += 1;
        rest = more;
    }
    Ok(events)
}

// The event of a line, unless the line is skipped.
fn read_line(alloc: Global, line: &str) -> Result<Option<EventLine>, LineFault>
    ensures event_is { IfOk result (λ e. specs.IsLineOf line.now e) }
    ensures malformed { result ≡ Err LineFault.Malformed → specs.is_malformed line.now ≡ true }
{
    if line.is_empty() || line.starts_with('#') {
        return Ok(None);
    }
    Ok(Some(read_event(alloc, line)?))
}
