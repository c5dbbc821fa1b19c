//! The labels of a sample, from the texts of its name.

ghost use Rattle.std.specs.Prelude.{◌≡◌, OnOk, map};
ghost use Rattle.report.specs.Exposition as specs;
ghost use Rattle.printing.specs.Pushed.{Puts};

use std::alloc::AllocError;
use std::fmt::Write;

/// Appends a label for each of a name's texts.
pub(crate) fn push_labels(text: &mut String, labels: &[&str], name: &str) -> Result<(), AllocError>
    ensures { OnOk result (Puts text.old text.new
        (specs.labels_text (map (λ c. c.now) labels.now) name.now)) }
{
    let mut left = labels;
    let mut texts = name;
    while let [label, more @ ..] = left {
        if more.is_empty() {
            push_label(text, label, texts)?;
            return Ok(());
        }
        push_label(text, label, first(texts))?;
        text.push_str(",")?;
        texts = rest(texts);
        left = more;
    }
    Ok(())
}

/// Appends a label with its value, which mustn't have a line feed: a sample is one line.
pub fn push_label(text: &mut String, name: &str, value: &str) -> Result<(), AllocError>
    ensures { OnOk result (Puts text.old text.new (specs.label name.now value.now)) }
{
    write!(text, "{name}=\"")?;
    push_value(text, value)?;
    text.push_str("\"")
}

fn push_value(text: &mut String, value: &str) -> Result<(), AllocError>
    ensures { OnOk result (Puts text.old text.new (specs.value_text value.now)) }
{
    for c in value.chars() {
        push_char(text, c)?;
    }
    Ok(())
}

fn push_char(text: &mut String, c: char) -> Result<(), AllocError>
    ensures { OnOk result (Puts text.old text.new (specs.value_char c)) }
{
    if c == '"' {
        text.push_str("\\\"")
    } else if c == '\\' {
        text.push_str("\\\\")
    } else {
        text.push(c)
    }
}

/// The first text of a name.
pub(crate) fn first<'a>(name: &'a str) -> &'a str
    ensures { result.now ≡ specs.first name.now }
{
    match name.split_once('\t') {
        Some((text, _)) => text,
        None => name,
    }
}

/// The texts after the first.
pub(crate) fn rest<'a>(name: &'a str) -> &'a str
    ensures { result.now ≡ specs.rest name.now }
{
    match name.split_once('\t') {
        Some((_, others)) => others,
        None => "",
    }
}
