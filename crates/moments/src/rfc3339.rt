//! Times by RFC 3339, section 5.6 (`date-time`), such as `2026-12-01T04:00:00.5+01:00`. The form is
//! tested here, and the library's parser, which accepts more, has the calendar.

ghost use Rattle.std.specs.Prelude.{◌≡◌, option_map};
ghost use Rattle.std.specs.Option.{option_copied};
ghost use Rattle.moments.specs.Rfc3339 as specs;

use jiff_core::Timestamp;
use jiff_fmt::temporal::parse_timestamp;

/// The instant of a time by RFC 3339, up to 9999-12-30T22:00:00Z. A fraction of a second has at
/// most nine digits, and a second 60 counts as 59.
pub(crate) fn time_in(text: &str) -> Option<Timestamp>
    ensures { option_map (λ time. time.nanosecond) result ≡ specs.time_in text.now }
{
    let text = text.as_bytes();
    if !is_date_time(text) {
        return None;
    }
    match parse_timestamp(text) {
        Ok(time) => Some(time),
        Err(_) => None,
    }
}

/// The Unix second of a time by RFC 3339, up to 9999-12-30T22:00:00Z. A fraction of at most nine
/// digits is cut, and a second 60 counts as 59.
pub fn second_of_time(text: &str) -> Option<i64>
    ensures { result ≡ specs.second_of_time text.now }
{
    match time_in(text) {
        Some(time) => Some(time.floor_second()),
        None => None,
    }
}

// ---- the form

fn is_date_time(text: &[u8]) -> bool
    ensures { result ≡ specs.is_date_time text.now }
{
    match after_form("9999-99-99T99:99:99", text) {
        Some(rest) => is_offset(after_fraction(rest)),
        None => false,
    }
}

fn is_offset(text: &[u8]) -> bool
    ensures { result ≡ specs.is_offset text.now }
{
    has_form("Z", text)
        || has_form("+19:59", text)
        || has_form("+23:59", text)
        || has_form("-19:59", text)
        || has_form("-23:59", text)
}

fn after_fraction<'a>(text: &'a [u8]) -> &'a [u8]
    ensures { result.now ≡ specs.after_fraction text.now }
{
    match after_form(".9", text) {
        Some(rest) => after_digits(rest),
        None => text,
    }
}

fn after_digits<'a>(text: &'a [u8]) -> &'a [u8]
    ensures { result.now ≡ specs.after_digits text.now }
{
    let mut left = text;
    while let [byte, rest @ ..] = left {
        if !byte.is_ascii_digit() {
            return left;
        }
        left = rest;
    }
    left
}

fn has_form(form: &str, text: &[u8]) -> bool
    ensures { result ≡ specs.has_form form.now text.now }
{
    match after_form(form, text) {
        Some(rest) => rest.is_empty(),
        None => false,
    }
}

fn after_form<'a>(form: &str, text: &'a [u8]) -> Option<&'a [u8]>
    ensures { option_copied result ≡ specs.after_form form.now text.now }
{
    let mut wanted = form.as_bytes();
    let mut left = text;
    while let [first, others @ ..] = wanted {
        let [byte, rest @ ..] = left else {
            return None;
        };
        if !form_allows(*first, *byte) {
            return None;
        }
        wanted = others;
        left = rest;
    }
    Some(left)
}

fn form_allows(form: u8, byte: u8) -> bool
    ensures { result ≡ specs.form_allows form byte }
{
    if form.is_ascii_digit() {
        byte.is_ascii_digit() && byte <= form
    } else {
        form == byte.to_ascii_uppercase()
    }
}
