//! Texts that are printed with their control characters escaped.

ghost use Rattle.std.specs.Prelude.{◌≡◌, ◌<◌};
ghost use Rattle.std.specs.Bool.{OnTrue};
ghost use Rattle.std.specs.Fmt.{WritesOnOk};
ghost use Rattle.printing.specs.Printed as specs;

use std::fmt;
use std::fmt::{Display, Formatter, Write};

/// A text for one line: each control character, even a line feed, is escaped in the form `\u{1b}`.
#[derive(Clone, Copy, Drop)]
pub struct Printed<'a>(pub &'a str);

/// A text of one or more lines: the same, except for its line feeds and tabs.
#[derive(Clone, Copy, Drop)]
pub struct PrintedLines<'a>(pub &'a str);

impl<'a> Display for Printed<'a> {
    ghost use Rattle.std.specs.Prelude.{Some};
    ghost use Rattle.printing.specs.Printed as specs;

    ghost output = { λ text. Some (specs.printed text.0.now) };

    fn fmt<W: Write>(&self, f: &mut Formatter<W>) -> fmt::Result {
        write_text(f, self.0)
    }
}

impl<'a> Display for PrintedLines<'a> {
    ghost use Rattle.std.specs.Prelude.{Some};
    ghost use Rattle.printing.specs.Printed as specs;

    ghost output = { λ text. Some (specs.printed_lines text.0.now) };

    fn fmt<W: Write>(&self, f: &mut Formatter<W>) -> fmt::Result {
        write_lines(f, self.0)
    }
}

/// Whether a character of the text must be escaped.
pub fn has_control(text: &str) -> bool
    ensures { result ≡ specs.has_control text.now }
{
    for c in text.chars() {
        if is_control(c) {
            return true;
        }
    }
    false
}

/// Whether a character must be escaped: a terminal may interpret it, or it ends a line. A server's
/// log escapes the same characters.
pub fn is_control(c: char) -> bool
    ensures value { result ≡ specs.is_control c }
    ensures small { OnTrue result (c < 65536) }
{
    c <= '\u{1f}'
        || ('\u{7f}' <= c && c <= '\u{9f}')
        || c == '\u{61c}'
        || ('\u{200e}' <= c && c <= '\u{200f}')
        || ('\u{2028}' <= c && c <= '\u{202e}')
        || ('\u{2066}' <= c && c <= '\u{2069}')
}

fn is_control_in_line(c: char) -> bool
    ensures { result ≡ specs.is_control_in_line c }
{
    is_control(c) && !(c == '\t' || c == '\n')
}

#[tactic(auto, unfolding(crate::specs::Printed::printed))]
fn write_text<W: Write>(f: &mut Formatter<W>, text: &str) -> fmt::Result
    ensures { WritesOnOk W.write_str_gives f.old result (specs.printed text.now) f.new }
{
    for c in text.chars() {
        write_char(f, c)?;
    }
    Ok(())
}

#[tactic(auto, unfolding(crate::specs::Printed::printed_lines))]
fn write_lines<W: Write>(f: &mut Formatter<W>, text: &str) -> fmt::Result
    ensures { WritesOnOk W.write_str_gives f.old result (specs.printed_lines text.now) f.new }
{
    for c in text.chars() {
        write_char_in_line(f, c)?;
    }
    Ok(())
}

fn write_char<W: Write>(f: &mut Formatter<W>, c: char) -> fmt::Result
    ensures { WritesOnOk W.write_str_gives f.old result
        (specs.printed_char specs.is_control c) f.new }
{
    if is_control(c) {
        write_escape(f, c)
    } else {
        f.write_char(c)
    }
}

fn write_char_in_line<W: Write>(f: &mut Formatter<W>, c: char) -> fmt::Result
    ensures { WritesOnOk W.write_str_gives f.old result
        (specs.printed_char specs.is_control_in_line c) f.new }
{
    if is_control_in_line(c) {
        write_escape(f, c)
    } else {
        f.write_char(c)
    }
}

fn write_escape<W: Write>(f: &mut Formatter<W>, c: char) -> fmt::Result
    ensures { WritesOnOk W.write_str_gives f.old result (specs.escape c) f.new }
{
    let code = u32::from(c);
    write!(f, "\\u{{{code:x}}}")
}
