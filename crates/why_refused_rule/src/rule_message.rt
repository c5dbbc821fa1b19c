//! The message about a refused rule. No clause says its words, its line and its column; rows
//! compare them. What it names as expected is proved in `trial.rt`.

use crate::caret::message_at;
use crate::follower::{SAMPLES, expects_test, push_samples};
use crate::hint::misplaced_hint;
use crate::lexeme_sentence::push_sentence;
use crate::place::{front, line_at, line_text};
use crate::quoting::push_lexeme;
use crate::spread::{lexeme_start, spread};
use crate::trial::samples_after;
use cells::Shape;
use rule_lang::{MOST_RULE, RuleFault, RuleFaultKind, parse};
use std::alloc::Global;
use std::str;

/// Explains the fault of a text, from its line and kind, under the shape of its app. The result is
/// some lines, each ended by a line feed, such as
///
/// ```text
/// line 2, column 1: "when" instead of ";"
///   when version < 3 offer 2;
///   ^
/// ```
///
/// Columns are counted in characters from 1. A control character in the line is shown as `\u{1b}`,
/// except for a tab. Returns `None` if an allocation fails, if this isn't the text's fault, or if
/// the text's words, one to a line, are more than 65536 bytes.
// open: that there is a result: it is None if an allocation fails, if the fault isn't this text's,
// and if its words, a line each, are over 65536 bytes; the place and the words: rows.
pub fn rule_fault_message(
    alloc: Global,
    text: &str,
    shape: &Shape,
    line: usize,
    kind: RuleFaultKind,
) -> Option<String> {
    if text.len() > MOST_RULE {
        return too_long_message(alloc, kind);
    }
    let rows = spread(alloc, text.as_bytes()).ok()?;
    let rows = str::from_utf8(rows.as_slice()).ok()?;
    let row = row_of(alloc, rows, shape, kind)?;
    let place = lexeme_start(row.saturating_sub(2), text.as_bytes());
    if line_at(front(text.as_bytes(), place)) != line {
        return None;
    }
    let mut sentence = String::new(alloc);
    let pushed = match kind {
        RuleFaultKind::Shape => push_expected(
            &mut sentence,
            text,
            shape,
            place,
            line_text(row, rows),
        ),
        _ => push_sentence(&mut sentence, shape, rows, row, kind).ok(),
    };
    pushed?;
    message_at(alloc, text, place, sentence.as_str())
}

fn too_long_message(alloc: Global, kind: RuleFaultKind) -> Option<String> {
    match kind {
        RuleFaultKind::Range => String::from_str(alloc, rule_too_long()).ok(),
        _ => None,
    }
}

/// The message about a rule's text of more than 65536 bytes: a line, ended by a line feed.
// open: the words: rows.
pub fn rule_too_long() -> &'static str {
    "a rule has at most 65536 bytes\n"
}

// The row of the lexeme with a fault of this kind, or `None`.
fn row_of(alloc: Global, rows: &str, shape: &Shape, kind: RuleFaultKind) -> Option<usize> {
    match parse(alloc, rows, shape) {
        Err(RuleFault::At { line, kind: other }) if 2 <= line && kind == other => Some(line),
        _ => None,
    }
}

// Adds what is there instead of what may be there, and a hint.
fn push_expected(
    sentence: &mut String,
    text: &str,
    shape: &Shape,
    place: usize,
    lexeme: &str,
) -> Option<()> {
    let alloc = *sentence.allocator();
    let before = front(text.as_bytes(), place);
    let expected = samples_after(alloc, shape, before, &SAMPLES)?;
    let is_test = expects_test(&expected);
    let hint = misplaced_hint(alloc, text.as_bytes(), place, lexeme, is_test).ok()?;
    push_lexeme(sentence, lexeme).ok()?;
    sentence.push_str(" instead of ").ok()?;
    push_samples(sentence, &expected).ok()?;
    sentence.push_str(hint.as_str()).ok()
}
