//! The header lines of a name, and the length of the body that they give.

ghost use Rattle.std.specs.Prelude.{◌≡◌, length, map, All, IfErr, option_copied};
ghost use Rattle.std.specs.List.{list_all};
ghost use Rattle.httparse.specs.Spans.{header_bytes, IsHeaderWithin};
ghost use Rattle.http_front.specs.Length.{writes, first_of, content_length};
ghost use Rattle.http_front.specs.Head.{is_named, has_line, IsFaultOfHead};
ghost use Rattle.http_front.specs.Reading.{values_at};

use crate::length::{number_of, significant, writes};
use crate::post_fault::PostFault;
use httparse::spans::HeaderSpan;

// Whether the line has the name, ignoring ASCII case.
fn is_named(buf: &[u8], line: &HeaderSpan, name: &[u8]) -> bool
    requires { IsHeaderWithin (length buf.now) line.now }
    ensures { result ≡ is_named name.now (header_bytes buf.now line.now) }
{
    line.name.of(buf).eq_ignore_ascii_case(name)
}

/// Whether a line has the name.
pub fn has_line(buf: &[u8], mut lines: &[HeaderSpan], name: &[u8]) -> bool
    requires { All (IsHeaderWithin (length buf.now)) lines.now }
    ensures { result ≡ has_line name.now (map (header_bytes buf.now) lines.now) }
{
    while let [line, rest @ ..] = lines {
        if is_named(buf, line, name) {
            return true;
        }
        lines = rest;
    }
    false
}

// The value of the first line that has the name.
fn first_value<'b>(buf: &'b [u8], mut lines: &[HeaderSpan], name: &[u8]) -> Option<&'b [u8]>
    requires { All (IsHeaderWithin (length buf.now)) lines.now }
    ensures { option_copied result ≡ first_of (values_at buf.now lines.now name.now) }
{
    while let [line, rest @ ..] = lines {
        if is_named(buf, line, name) {
            return Some(line.value.of(buf));
        }
        lines = rest;
    }
    None
}

// Whether the value of each line that has the name is the number with these digits.
fn all_write(buf: &[u8], mut lines: &[HeaderSpan], name: &[u8], digits: &[u8]) -> bool
    requires { All (IsHeaderWithin (length buf.now)) lines.now }
    ensures { result ≡ list_all (writes digits.now) (values_at buf.now lines.now name.now) }
{
    while let [line, rest @ ..] = lines {
        if is_named(buf, line, name) && !writes(digits, line.value.of(buf)) {
            return false;
        }
        lines = rest;
    }
    true
}

/// The length of the body that the lines of the name give.
pub fn content_length(buf: &[u8], lines: &[HeaderSpan], name: &[u8]) -> Result<usize, PostFault>
    requires { All (IsHeaderWithin (length buf.now)) lines.now }
    ensures length { result ≡ content_length (values_at buf.now lines.now name.now) }
    ensures rule { IfErr result IsFaultOfHead }
{
    let Some(value) = first_value(buf, lines, name) else {
        return Err(PostFault::Length);
    };
    let digits = significant(value);
    if !all_write(buf, lines, name, digits) {
        return Err(PostFault::Head);
    }
    number_of(digits).ok_or(PostFault::TooLarge)
}
