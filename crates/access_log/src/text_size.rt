//! How many bytes a text may take in a line, computed without its line.

ghost use Rattle.std.specs.Prelude.{◌≡◌, ◌*◌, ◌≤◌, length};
ghost use Rattle.std.specs.Str.{chars};
ghost use Rattle.access_log.specs.TextSize as specs;

use crate::unescaped::is_plain;
use printing::is_control;

/// The most bytes of a line, with its line feed.
pub const LINE_LIMIT: usize = 4096;

/// The most bytes that a text takes in a line.
pub fn text_size(text: &str) -> usize
    ensures value { result ≡ specs.text_size text.now }
    ensures bound { result ≤ 6 * length text.now }
{
    if text.len() > LINE_LIMIT {
        return LINE_LIMIT + 1;
    }
    let bytes = text.as_bytes();
    if is_plain(bytes) {
        return text.len();
    }
    chars_size(text)
}

fn chars_size(text: &str) -> usize
    requires { length text.now ≤ 4096 }
    ensures value { result ≡ specs.chars_size (chars text.now) }
    ensures bound { result ≤ 6 * length text.now }
{
    let mut room = 0;
    for c in text.chars() {
        room += char_size(c);
    }
    room
}

fn char_size(c: char) -> usize
    ensures value { result ≡ specs.char_size c }
    ensures bound { result ≤ 6 }
{
    if is_control(c) {
        6
    } else if c == '"' || c == '\\' {
        2
    } else {
        c.len_utf8()
    }
}
