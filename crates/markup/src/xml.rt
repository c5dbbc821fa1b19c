//! Texts as character data of XML.

ghost use Rattle.std.specs.Prelude.{OnOk};
ghost use Rattle.printing.specs.Pushed.{Puts};
ghost use Rattle.markup.specs.Xml.{xml_char, xml_text};

use std::alloc::AllocError;

/// Appends a text with its markup escaped, and a question mark for each character that XML doesn't
/// allow.
pub(crate) fn push_xml(text: &mut String, more: &str) -> Result<(), AllocError>
    ensures { OnOk result (Puts text.old text.new (xml_text more.now)) }
{
    for c in more.chars() {
        push_char(text, c)?;
    }
    Ok(())
}

fn push_char(text: &mut String, c: char) -> Result<(), AllocError>
    ensures { OnOk result (Puts text.old text.new (xml_char c)) }
{
    if c == '&' {
        text.push_str("&amp;")
    } else if c == '<' {
        text.push_str("&lt;")
    } else if c == '>' {
        text.push_str("&gt;")
    } else if c == '"' {
        text.push_str("&quot;")
    } else if c == '\'' {
        text.push_str("&#39;")
    } else if c < '\u{20}' || c == '\u{7f}' || c == '\u{fffe}' || c == '\u{ffff}' {
        text.push_str("?")
    } else {
        text.push(c)
    }
}
