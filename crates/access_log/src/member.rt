//! Members of a JSON object, each appended after earlier ones.

ghost use Rattle.std.specs.Prelude.{◌≡◌, ◌++◌, true, OnOk, option_copied};
ghost use Rattle.json.specs.Token.{boolean};
ghost use Rattle.access_log.specs.Tokens.{AddsMembers};
ghost use Rattle.access_log.specs.Members as specs;
ghost use Rattle.access_log.specs.Plain.{is_plain_text};
ghost use Rattle.access_log.specs.Spelled.{spelled_token};

use crate::excerpt::Excerpt;
use crate::json_text::{write_digits, write_name, write_plain, write_quoted};
use crate::line_buffer::LineBuffer;
use std::alloc::AllocError;

/// A member that is a text.
#[inline(always)]
#[tactic(auto, using(crate::proofs::Added::adds_text))]
pub fn write_text(line: &mut LineBuffer, name: &str, text: &str) -> Result<(), AllocError>
    requires { is_plain_text name.now ≡ true }
    ensures { OnOk result (AddsMembers line.old line.new
        (specs.text_member name.now text.now)) }
{
    write_name(line, name)?;
    write_quoted(line, text)?;
    Ok(())
}

/// A member that is a text without characters to escape.
#[inline(always)]
#[tactic(auto, using(crate::proofs::Added::adds_text))]
pub fn write_word(line: &mut LineBuffer, name: &str, word: &str) -> Result<(), AllocError>
    requires name { is_plain_text name.now ≡ true }
    requires word { is_plain_text word.now ≡ true }
    ensures { OnOk result (AddsMembers line.old line.new (specs.text_member name.now word.now)) }
{
    write_name(line, name)?;
    write_plain(line, word.as_bytes())?;
    Ok(())
}

/// A member that is a number.
#[inline(always)]
#[tactic(auto, using(crate::proofs::Added::adds_number))]
pub fn write_number(line: &mut LineBuffer, name: &str, n: u64) -> Result<(), AllocError>
    requires { is_plain_text name.now ≡ true }
    ensures { OnOk result (AddsMembers line.old line.new
        (specs.number_member name.now n)) }
{
    write_name(line, name)?;
    write_digits(line, n)?;
    Ok(())
}

/// A member that is true or false.
#[inline(always)]
#[tactic(auto, using(crate::proofs::Added::adds_flag))]
pub fn write_flag(line: &mut LineBuffer, name: &str, holds: bool) -> Result<(), AllocError>
    requires { is_plain_text name.now ≡ true }
    ensures { OnOk result (AddsMembers line.old line.new
        (specs.flag_member name.now holds)) }
{
    write_name(line, name)?;
    write_bool(line, holds)?;
    Ok(())
}

// true or false
#[inline(always)]
fn write_bool(line: &mut LineBuffer, holds: bool) -> Result<(), AllocError>
    ensures { OnOk result (line.new ≡ line.old ++ spelled_token (boolean holds)) }
{
    if holds {
        line.put(b"true")
    } else {
        line.put(b"false")
    }
}

/// A member that is a text, if there is one.
#[inline(always)]
#[tactic(auto, using(crate::proofs::Added::adds_nothing))]
pub fn write_optional(
    line: &mut LineBuffer,
    name: &str,
    text: Option<&str>,
) -> Result<(), AllocError>
    requires { is_plain_text name.now ≡ true }
    ensures { OnOk result (AddsMembers line.old line.new
        (specs.optional_member name.now (option_copied text.entry))) }
{
    match text {
        Some(text) => write_text(line, name, text),
        None => Ok(()),
    }
}

/// A member that is a number, unless it is 0.
#[inline(always)]
#[tactic(auto, using(crate::proofs::Added::adds_nothing))]
pub fn write_count(line: &mut LineBuffer, name: &str, n: u64) -> Result<(), AllocError>
    requires { is_plain_text name.now ≡ true }
    ensures { OnOk result (AddsMembers line.old line.new
        (specs.count_member name.now n)) }
{
    if n == 0 {
        return Ok(());
    }
    write_number(line, name, n)
}

/// How many bytes are left out of a text, if any are.
pub fn write_left_out_of(
    line: &mut LineBuffer,
    name: &str,
    excerpt: &Excerpt<'_>,
) -> Result<(), AllocError>
    requires { is_plain_text name.now ≡ true }
    ensures { OnOk result (AddsMembers line.old line.new
        (specs.count_member name.now (specs.left_out excerpt.now))) }
{
    write_count(line, name, excerpt.left_out())
}

/// A member that is a text which may be cut, followed by the number of bytes left out, if any are.
pub fn write_excerpt(
    line: &mut LineBuffer,
    name: &str,
    left_out: &str,
    excerpt: &Excerpt<'_>,
) -> Result<(), AllocError>
    requires name { is_plain_text name.now ≡ true }
    requires left_out { is_plain_text left_out.now ≡ true }
    ensures { OnOk result (AddsMembers line.old line.new
        (specs.excerpt_members name.now left_out.now excerpt.now)) }
{
    write_text(line, name, excerpt.text)?;
    write_left_out_of(line, left_out, excerpt)?;
    Ok(())
}

/// Writes the member of an excerpt, if there is one.
#[tactic(auto, using(crate::proofs::Added::adds_nothing))]
pub fn write_optional_excerpt(
    line: &mut LineBuffer,
    name: &str,
    left_out: &str,
    excerpt: &Option<Excerpt<'_>>,
) -> Result<(), AllocError>
    requires name { is_plain_text name.now ≡ true }
    requires left_out { is_plain_text left_out.now ≡ true }
    ensures { OnOk result (AddsMembers line.old line.new
        (specs.optional_excerpt name.now left_out.now excerpt.now)) }
{
    match excerpt {
        Some(excerpt) => write_excerpt(line, name, left_out, excerpt),
        None => Ok(()),
    }
}
