//! A client's text in quotes.

ghost use Rattle.std.specs.Prelude.{◌≡◌, OnOk};
ghost use Rattle.printing.specs.Pushed.{Puts};
ghost use Rattle.printing.specs.Printed.{escape, printed_char};
ghost use Rattle.why_choice.specs.Quoted as specs;

use std::alloc::AllocError;
use std::fmt::Write;

/// Adds a text in quotes. A quote, a backslash and anything but printable ASCII is escaped by its
/// code point, such as `\u{22}`. So the text ends at the next quote, different texts look
/// different, and invisible characters are visible.
// open: whether an allocation fails, which is its one error, and what the text is then; that
// different texts look different: rows.
pub fn push_quoted(text: &mut String, client: &str) -> Result<(), AllocError>
    ensures { OnOk result (Puts text.old text.new (specs.quoted client.now)) }
{
    text.push_str("\"")?;
    push_escaped(text, client)?;
    text.push_str("\"")
}

#[tactic(auto, unfolding(crate::specs::Quoted::escaped))]
fn push_escaped(text: &mut String, client: &str) -> Result<(), AllocError>
    ensures { OnOk result (Puts text.old text.new (specs.escaped client.now)) }
{
    for c in client.chars() {
        push_char(text, c)?;
    }
    Ok(())
}

fn push_char(text: &mut String, c: char) -> Result<(), AllocError>
    ensures { OnOk result (Puts text.old text.new (printed_char specs.is_shown_by_number c)) }
{
    if is_shown_by_number(c) {
        push_escape(text, c)
    } else {
        text.push(c)
    }
}

fn is_shown_by_number(c: char) -> bool
    ensures { result ≡ specs.is_shown_by_number c }
{
    !(' ' <= c && c <= '~') || c == '"' || c == '\\'
}

fn push_escape(text: &mut String, c: char) -> Result<(), AllocError>
    ensures { OnOk result (Puts text.old text.new (escape c)) }
{
    let code = u32::from(c);
    write!(text, "\\u{{{code:x}}}")
}
