//! How a name is written: one or more texts, with tabs between them. Control characters in a text
//! are escaped, so no text contains a tab.

ghost use Rattle.std.specs.Prelude.{◌≡◌, ◌++◌, false, IfOk, OnOk};
ghost use Rattle.std.specs.Option.{option_copied};
ghost use Rattle.std.specs.String.{string_bytes};
ghost use Rattle.printing.specs.Laws.{PrintsNoControl};
ghost use Rattle.printing.specs.Printed.{has_control as specs_has_control, printed};
ghost use Rattle.report.specs.Names as specs;

use printing::{Printed, has_control, no_control_is_printed};
use std::alloc::{AllocError, Global};
use std::fmt::Write;

/// The room for a usual name.
const USUAL_BYTES: usize = 64;

/// A name of one text.
pub(crate) fn one(alloc: Global, text: &str) -> Result<String, AllocError>
    ensures { IfOk result (λ s. string_bytes s ≡ specs.one text.now) }
{
    let mut name = String::with_capacity(alloc, USUAL_BYTES)?;
    push_printed(&mut name, text)?;
    Ok(name)
}

/// A name of two texts.
pub(crate) fn two(alloc: Global, a: &str, b: &str) -> Result<String, AllocError>
    ensures { IfOk result (λ s. string_bytes s ≡ specs.two a.now b.now) }
{
    let mut name = one(alloc, a)?;
    name.push_str("\t")?;
    push_printed(&mut name, b)?;
    Ok(name)
}

/// A name of three texts.
pub(crate) fn three(alloc: Global, a: &str, b: &str, c: &str) -> Result<String, AllocError>
    ensures { IfOk result (λ s. string_bytes s ≡ specs.three a.now b.now c.now) }
{
    let mut name = two(alloc, a, b)?;
    name.push_str("\t")?;
    push_printed(&mut name, c)?;
    Ok(name)
}

// Appends a text, printed. Few texts have a character to escape; the others are copied whole.
fn push_printed(name: &mut String, text: &str) -> Result<(), AllocError>
    ensures { OnOk result
        (string_bytes name.new ≡ string_bytes name.old ++ printed text.now) }
{
    if has_control(text) {
        let printed = Printed(text);
        write!(name, "{printed}")?;
        return Ok(());
    }
    no_control_is_printed();
    push_plain(name, text)
}

#[tactic(auto, using(crate::proofs::Names::plain_is_printed))]
fn push_plain(name: &mut String, text: &str) -> Result<(), AllocError>
    requires law { PrintsNoControl }
    requires none { specs_has_control text.now ≡ false }
    ensures { OnOk result
        (string_bytes name.new ≡ string_bytes name.old ++ printed text.now) }
{
    name.push_str(text)
}

/// The kind of count, the app, the version, and the minute or hour.
pub(crate) fn course_name(
    alloc: Global,
    what: &str,
    appid: &str,
    version: &str,
    moment: u64,
) -> Result<String, AllocError>
    ensures { IfOk result (λ s. string_bytes s
        ≡ specs.course_name what.now appid.now version.now moment) }
{
    let mut name = three(alloc, what, appid, version)?;
    write!(name, "\t{moment}")?;
    Ok(name)
}

/// A number in decimal digits.
pub(crate) fn decimal(alloc: Global, n: u64) -> Result<String, AllocError>
    ensures { IfOk result (λ s. string_bytes s ≡ specs.decimal_text n) }
{
    n.to_string(alloc)
}

/// The text, or a question mark without it.
pub(crate) fn text_or_mark<'a>(text: Option<&'a str>) -> &'a str
    ensures { result.now ≡ specs.text_or_mark (option_copied text.entry) }
{
    match text {
        Some(text) => text,
        None => "?",
    }
}
