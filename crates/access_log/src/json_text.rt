//! Appends the text of JSON's tokens (RFC 8259) to a line. A control that a terminal may obey is
//! also escaped.

ghost use Rattle.std.specs.Prelude.{◌≡◌, ◌++◌, ◌<◌, true, decimal, OnOk};
ghost use Rattle.std.specs.Char.{digit_char};
ghost use Rattle.json.specs.Print.{escape_letter, escape_byte};
ghost use Rattle.access_log.specs.Plain.{is_plain_text, named};
ghost use Rattle.access_log.specs.Spelled as specs;

use crate::line_buffer::LineBuffer;
use crate::unescaped::is_plain;
use itoa::Buffer;
use printing::is_control;
use std::alloc::AllocError;

/// The digits of a number.
#[inline(always)]
pub fn write_digits(line: &mut LineBuffer, n: u64) -> Result<(), AllocError>
    ensures { OnOk result (line.new ≡ line.old ++ decimal n) }
{
    let mut buffer = Buffer::new();
    line.put(buffer.format(n).as_bytes())
}

/// A comma, a name without characters to escape, and a colon.
#[inline(always)]
pub fn write_name(line: &mut LineBuffer, name: &str) -> Result<(), AllocError>
    ensures { OnOk result (line.new ≡ line.old ++ named name.now) }
{
    line.put(b",\"")?;
    line.put(name.as_bytes())?;
    line.put(b"\":")?;
    Ok(())
}

/// A text between quotes. A reader of JSON gets the same text back.
#[tactic(auto, using(crate::proofs::ReadBack::text_reads))]
pub fn write_quoted(line: &mut LineBuffer, text: &str) -> Result<(), AllocError>
    ensures text { OnOk result (line.new ≡ line.old ++ specs.spelled_quoted text.now) }
    ensures reads { specs.IsReadBack text.now }
{
    line.put(b"\"")?;
    write_spelled(line, text)?;
    line.put(b"\"")?;
    Ok(())
}

/// A text without characters to escape, between quotes.
#[inline(always)]
pub fn write_plain(line: &mut LineBuffer, text: &[u8]) -> Result<(), AllocError>
    requires { is_plain_text text.now ≡ true }
    ensures { OnOk result (line.new ≡ line.old ++ specs.spelled_quoted text.now) }
{
    line.put(b"\"")?;
    line.put(text)?;
    line.put(b"\"")?;
    Ok(())
}

// A text with its escapes; most texts have none.
fn write_spelled(line: &mut LineBuffer, text: &str) -> Result<(), AllocError>
    ensures { OnOk result (line.new ≡ line.old ++ specs.spelled_text text.now) }
{
    let bytes = text.as_bytes();
    if is_plain(bytes) {
        line.put(bytes)?;
        return Ok(());
    }
    write_each_char(line, text)
}

#[inline(never)]
fn write_each_char(line: &mut LineBuffer, text: &str) -> Result<(), AllocError>
    ensures { OnOk result (line.new ≡ line.old ++ specs.spelled_text text.now) }
{
    for c in text.chars() {
        write_char(line, c)?;
    }
    Ok(())
}

fn write_char(line: &mut LineBuffer, c: char) -> Result<(), AllocError>
    ensures { OnOk result (line.new ≡ line.old ++ specs.spelled_char c) }
{
    let code = c as u32;
    if code < 127 {
        return write_escape(line, code as u8);
    }
    if is_control(c) {
        return write_unicode_escape(line, code);
    }
    let mut bytes = [0; 4];
    line.put(c.encode_utf8(&mut bytes).as_bytes())
}

fn write_unicode_escape(line: &mut LineBuffer, code: u32) -> Result<(), AllocError>
    requires { code < 65536 }
    ensures { OnOk result (line.new ≡ line.old ++ specs.unicode_escape code) }
{
    line.put(&[
        b'\\',
        b'u',
        hex((code / 4096) as u8),
        hex((code / 256 % 16) as u8),
        hex((code / 16 % 16) as u8),
        hex((code % 16) as u8),
    ])
}

#[tactic(auto, unfolding(json::specs::Print::escape_byte))]
fn write_escape(line: &mut LineBuffer, byte: u8) -> Result<(), AllocError>
    ensures { OnOk result (line.new ≡ line.old ++ escape_byte byte) }
{
    let letter = letter(byte);
    if 0 < letter {
        return line.put(&[b'\\', letter]);
    }
    if byte < 32 {
        return line.put(&[b'\\', b'u', b'0', b'0', hex(byte / 16), hex(byte % 16)]);
    }
    line.put(&[byte])
}

// The letter of a short escape, or 0 if there is none.
fn letter(byte: u8) -> u8
    ensures { result ≡ escape_letter byte }
{
    match byte {
        b'"' | b'\\' => byte,
        8 => b'b',
        12 => b'f',
        b'\n' => b'n',
        b'\r' => b'r',
        b'\t' => b't',
        _ => 0,
    }
}

fn hex(digit: u8) -> u8
    requires { digit < 16 }
    ensures { result ≡ digit_char digit }
{
    if digit < 10 {
        b'0' + digit
    } else {
        b'a' - 10 + digit
    }
}
