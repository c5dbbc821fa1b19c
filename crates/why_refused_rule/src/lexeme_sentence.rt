//! The words about an unknown lexeme (L1), a wrong name (L3), or a number, a `not` or a parenthesis
//! out of range (L4). No clause says which; rows compare them.

use crate::hint::hint;
use crate::place::line_text;
use crate::quoting::push_lexeme;
use cells::Shape;
use rule_lang::{RuleFaultKind, array_named};
use std::alloc::AllocError;
use std::fmt::Write;

/// Adds the words about the lexeme in a row; there is one lexeme a row.
pub(crate) fn push_sentence(
    text: &mut String,
    shape: &Shape,
    rows: &str,
    row: usize,
    kind: RuleFaultKind,
) -> Result<(), AllocError> {
    let found = line_text(row, rows);
    let before = line_text(row.saturating_sub(1), rows);
    let earlier = line_text(row.saturating_sub(2), rows);
    push_lexeme(text, found)?;
    match kind {
        RuleFaultKind::Token => {
            let hint = hint(found);
            write!(text, " is no word of a rule{hint}")
        }
        RuleFaultKind::Shape => Ok(()),
        RuleFaultKind::Name => push_name_sentence(text, shape, before, found),
        RuleFaultKind::Range => {
            text.push_str(" is out of range: ")?;
            push_range_sentence(text, shape, earlier, before, found)
        }
    }
}

// Which names there are, or of which kind the array is.
fn push_name_sentence(
    text: &mut String,
    shape: &Shape,
    before: &str,
    found: &str,
) -> Result<(), AllocError> {
    if before == "flag" {
        return text.push_str(
            " is no flag; there are: version_known, updatecheck, ping, event, cohort_known, \
            installdate_known",
        );
    }
    if before == "attr" {
        return text.push_str(
            " is no attribute; there are: appid, version, brand, ap, lang, cohort, platform",
        );
    }
    match array_named(shape.arrays(), found) {
        Some(array) if array.quota.is_some() => {
            text.push_str(" has a quota: take adds to it, and count doesn't")
        }
        Some(_) => text.push_str(" has no quota: count adds to it, and take doesn't"),
        None => push_array_names(text, shape),
    }
}

fn push_array_names(text: &mut String, shape: &Shape) -> Result<(), AllocError> {
    if shape.arrays().is_empty() {
        return text.push_str(" is no array; there are: none");
    }
    let mut before = " is no array; there are: ";
    for array in shape.arrays() {
        let name = array.name.as_str();
        write!(text, "{before}{name}")?;
        before = ", ";
    }
    Ok(())
}

// What is in range after the two previous lexemes.
fn push_range_sentence(
    text: &mut String,
    shape: &Shape,
    earlier: &str,
    before: &str,
    found: &str,
) -> Result<(), AllocError> {
    if found == "not" || found == "(" {
        return text.push_str("not and ( are nested at most 32 deep");
    }
    if before == "offer" {
        return push_releases(text, shape.releases());
    }
    if before == "[" || before == "," {
        return match array_named(shape.arrays(), earlier) {
            Some(array) => {
                let name = array.name.as_str();
                let length = array.length;
                write!(text, "{name}'s indexes are below {length}")
            }
            None => Ok(()),
        };
    }
    text.push_str(number_range(before, earlier))
}

fn push_releases(text: &mut String, releases: u8) -> Result<(), AllocError> {
    match releases {
        0 => text.push_str("the app has no release"),
        _ => write!(text, "the app's releases are 1 to {releases}"),
    }
}

fn number_range(before: &str, earlier: &str) -> &'static str {
    if before == "mod" {
        "1 to 4294967295"
    } else if before == "(" {
        "0 to 18446744073709551615"
    } else if earlier == "version" {
        "each number of a version is at most 4294967295"
    } else {
        "0 to 4294967295"
    }
}
