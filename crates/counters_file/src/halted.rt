//! The line of a halted app.

ghost use Rattle.std.specs.Prelude.{◌≡◌, ◌++◌, IfOk, OnOk, map, option_map, string_bytes};
ghost use Rattle.std.specs.Prelude.{All, IsTrue, None, Some, flat_map, if◌then◌else◌};
ghost use Rattle.percent_encoding.specs.Percent.{percent_decode};
ghost use Rattle.counters_file.specs.Halts as specs;
ghost use Rattle.counters_file.specs.Text.{ended};

use percent_encoding::{AsciiSet, CONTROLS, ascii_set, percent_decode, utf8_percent_encode};
use releases::is_appid;
use std::alloc::{AllocError, Global};

/// What is escaped besides all that is outside ASCII: so an appid has no blank, and is one line.
const ESCAPES: AsciiSet = ascii_set!(CONTROLS.add(b' ').add(b'%'));

/// Appends the lines of halted apps.
pub(crate) fn push_halted(text: &mut String, halted: &[String]) -> Result<(), AllocError>
    ensures text { OnOk result (string_bytes text.new ≡ string_bytes text.old
        ++ flat_map ended (map specs.halted_line (map string_bytes halted.now))) }
    ensures texts { OnOk result (All specs.IsText (map string_bytes halted.now)) }
{
    let mut left = halted;
    while let [appid, others @ ..] = left {
        push_one(text, appid.as_str())?;
        left = others;
    }
    Ok(())
}

fn push_one(text: &mut String, appid: &str) -> Result<(), AllocError>
    ensures text { OnOk result
        (string_bytes text.new ≡ string_bytes text.old ++ ended (specs.halted_line appid.now)) }
    ensures is_text { specs.IsText appid.now }
{
    text.push_str("halted ")?;
    utf8_percent_encode(appid, ESCAPES).append_to(text)?;
    text.push_str("\n")
}

/// The appid that a line names, if it is the line of an app that can be halted.
pub(crate) fn halted_in(alloc: Global, line: &str) -> Result<Option<String>, AllocError>
    ensures { IfOk result (λ o. option_map string_bytes o ≡ specs.halted_in line.now) }
{
    let word: &[u8] = b"halted ";
    match line.as_bytes().strip_prefix(word) {
        Some(escaped) => unescaped(alloc, escaped),
        None => Ok(None),
    }
}

// The appid that is escaped, unless no app that can be halted has it.
fn unescaped(alloc: Global, escaped: &[u8]) -> Result<Option<String>, AllocError>
    ensures { IfOk result
        (λ o. option_map string_bytes o ≡ specs.appid_in (percent_decode escaped.now)) }
{
    let mut bytes = Vec::new(alloc);
    percent_decode(escaped).append_to(&mut bytes)?;
    match String::from_utf8(bytes) {
        Ok(text) => Ok(if_can_be_halted(text)),
        Err(_) => Ok(None),
    }
}

// This appid, if an app that can be halted has it.
fn if_can_be_halted(appid: String) -> Option<String>
    ensures { let text = string_bytes appid in
        option_map string_bytes result ≡ (if specs.can_be_halted text then Some text else None) }
{
    if can_be_halted(appid.as_str()) {
        Some(appid)
    } else {
        None
    }
}

/// Whether all apps with these appids can be halted.
pub(crate) fn all_can_be_halted(appids: &[String]) -> bool
    ensures { IsTrue result → All specs.CanBeHalted (map string_bytes appids.now) }
{
    let mut left = appids;
    while let [appid, others @ ..] = left {
        if !can_be_halted(appid.as_str()) {
            return false;
        }
        left = others;
    }
    true
}

fn can_be_halted(appid: &str) -> bool
    ensures { result ≡ specs.can_be_halted appid.now }
{
    is_appid(appid) && !appid.as_bytes().contains(&b'\n')
}
