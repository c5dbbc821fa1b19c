//! What is said of a file that isn't as a step left it.

// No contract says what is printed: rows compare it.

use crate::outcome::Stop;
use crate::refusals::refusal;
use crate::serves::{Serves, Surveyed};
use printing::TextBuffer;
use stage_records::FileState;
use std::alloc::Global;

/// A server that serves what the last step left, and the number of that step.
#[derive(Clone, Copy)]
pub(crate) struct Serving {
    port: u16,
    number: u32,
}

/// The first such server.
pub(crate) fn serving_last(servers: &[Surveyed]) -> Option<Serving> {
    for server in servers {
        if let Serves::Step {
            number,
            later: 0,
            ..
        } = &server.serves
        {
            return Some(Serving {
                port: server.port,
                number: *number,
            });
        }
    }
    None
}

// A file isn't as a step left it, and what to do.
fn not_as_left(alloc: Global, name: &str, number: u32, advice: &str) -> Stop {
    let mut text = TextBuffer::new(alloc);
    text.push_printed("", name, " isn't as step ");
    text.push_number("", number as u64, " left it: ");
    text.push(advice);
    text.push(" (--anyway continues)");
    refusal(text)
}

// A file was edited since the step that a server serves.
fn edited(alloc: Global, name: &str, serving: Serving) -> Stop {
    let mut text = TextBuffer::new(alloc);
    text.push_printed("", name, " was edited since step ");
    text.push_number("", serving.number as u64, "");
    text.push_number(", which the server at ", serving.port as u64, " serves: ");
    text.push("restore it, or put its manifest in place (--anyway continues)");
    refusal(text)
}

/// What to do about a file of the last step that is as the step found it.
const HALF: &str = "call stage back if it stopped, or undoing it did; or restore it";

/// The stop at a file that isn't as the step of this number left it. One that is as the last step
/// found it may be left so by that step, or by `back`, that stopped.
pub(crate) fn unlike(
    alloc: Global,
    name: &str,
    number: u32,
    is_last: bool,
    state: FileState,
    serving: Option<Serving>,
) -> Stop {
    match (serving, state) {
        (Some(serving), FileState::Edited) => edited(alloc, name, serving),
        (_, FileState::Before) if is_last => not_as_left(alloc, name, number, HALF),
        _ => not_as_left(alloc, name, number, "restore it"),
    }
}
