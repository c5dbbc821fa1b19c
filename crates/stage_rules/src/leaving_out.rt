//! The text of a rule without the statements that offer a version. Each statement is found in the
//! text, and read separately.

ghost use Rattle.std.specs.Prelude.{◌≡◌, ◌++◌, ◌∷◌, ◌<◌, ◌==◌, [], ℕ, List, length, filter};
ghost use Rattle.std.specs.Prelude.{IfOk, IfSome, OnOk, true, if◌then◌else◌, string_bytes};
ghost use Rattle.rule_lang.specs.declared.rule.Statement.{Statement as a_statement};
ghost use Rattle.stage_rules.specs.ReleaseHalts.{IsOfferText, IsSoFar, LeavesOut};
ghost use Rattle.stage_rules.specs.ReleaseHalts as specs;

use crate::offers::offers;
use cells::Shape;
use releases::Release;
use rule_lang::{RuleFault, Statement, parse};
use std::alloc::{AllocError, Global};

// ---- the parts of a text

// How long the blanks, line ends and comments at the start are.
fn gap_length(text: &[u8]) -> usize {
    let mut in_comment = false;
    for place in 0..text.len() {
        match text[place] {
            b'\n' => in_comment = false,
            b'#' => in_comment = true,
            b' ' | b'\t' | b'\r' => {}
            _ if in_comment => {}
            _ => return place,
        }
    }
    text.len()
}

// How long the first statement is, with its `;`.
fn statement_length(text: &[u8]) -> usize {
    let mut in_comment = false;
    let mut in_quotes = false;
    for place in 0..text.len() {
        match text[place] {
            b'\n' => in_comment = false,
            b'"' if !in_comment => in_quotes = !in_quotes,
            b'#' if !in_quotes => in_comment = true,
            b';' if !in_quotes && !in_comment => return place + 1,
            _ => {}
        }
    }
    text.len()
}

fn part_length(text: &[u8]) -> usize {
    match gap_length(text) {
        0 => statement_length(text),
        length => length,
    }
}

// A part of a text, and what follows it.
#[derive(Clone, Copy)]
struct Split<'a> {
    part: &'a str,
    rest: &'a str,
}

// What precedes the first statement of a text, or that statement. Its end only has to be
// right for rules: nothing is proved about it.
fn next_part(text: &str) -> Option<Split<'_>>
    ensures { IfSome result (λ split. (text.now ≡ split.part.now ++ split.rest.now)
        × (0 < length split.part.now)) }
{
    let (part, rest) = text.split_at_checked(part_length(text.as_bytes()))?;
    if part.is_empty() {
        return None;
    }
    Some(Split { part, rest })
}

// ---- what stays of a part

fn is_one_offer(releases: &[Release], version: &str, rule: &[Statement]) -> bool
    ensures { result ≡ true → (statement : a_statement) × (rule.now ≡ statement ∷ [])
        × (specs.offers releases.now version.now statement ≡ true) }
{
    match rule {
        [statement] => offers(releases, version, statement),
        _ => false,
    }
}

// Whether a part of a text is a statement that offers the version.
fn is_offer_text(
    alloc: Global,
    part: &str,
    shape: &Shape,
    releases: &[Release],
    version: &str,
) -> Result<bool, AllocError>
    ensures { IfOk result (λ is. is ≡ true
        → IsOfferText shape.now releases.now version.now part.now) }
{
    let bytes = part.as_bytes();
    if !bytes.starts_with(b"when") || !bytes.ends_with(b";") {
        return Ok(false);
    }
    let rule = format!(in alloc; "{part}otherwise none;\n")?;
    match parse(alloc, rule.as_str(), shape) {
        Ok(rule) => Ok(is_one_offer(releases, version, rule.statements())),
        Err(RuleFault::Memory) => Err(AllocError),
        Err(_) => Ok(false),
    }
}

fn line_end(byte: u8) -> &'static str
    ensures { result.now ≡ if byte == 10 then byte ∷ [] else [] }
{
    if byte == b'\n' { "\n" } else { "" }
}

fn push_line_ends(new: &mut String, part: &str) -> Result<(), AllocError>
    ensures { OnOk result (string_bytes new.new
        ≡ string_bytes new.old ++ filter (λ byte. byte == 10) part.now) }
{
    let mut left = part.as_bytes();
    while let [byte, rest @ ..] = left {
        new.push_str(line_end(*byte))?;
        left = rest;
    }
    Ok(())
}

// Adds a part, or only its line ends.
fn push_part(
    alloc: Global,
    new: &mut String,
    part: &str,
    shape: &Shape,
    releases: &[Release],
    version: &str,
) -> Result<(), AllocError>
    ensures { OnOk result ((text rest : List ℕ)
        → IsSoFar shape.now releases.now version.now text (part.now ++ rest) (string_bytes new.old)
        → IsSoFar shape.now releases.now version.now text rest (string_bytes new.new)) }
{
    if is_offer_text(alloc, part, shape, releases, version)? {
        push_line_ends(new, part)?;
        return Ok(());
    }
    new.push_str(part)?;
    Ok(())
}

/// The text without the statements that offer the version. Of these only the line ends stay.
pub(crate) fn text_without(
    alloc: Global,
    text: &str,
    shape: &Shape,
    releases: &[Release],
    version: &str,
) -> Result<String, AllocError>
    ensures { IfOk result (λ new.
        LeavesOut shape.now releases.now version.now text.now (string_bytes new)) }
{
    let mut new = String::new(alloc);
    let mut left = text;
    while let Some(split) = next_part(left) {
        push_part(alloc, &mut new, split.part, shape, releases, version)?;
        left = split.rest;
    }
    new.push_str(left)?;
    Ok(new)
}
