//! Elements of a page that have only a text.

use markup::{Class, Document, Tag};
use moments::second_of_time;
use printing::Printed;
use std::fmt::Display;

/// The powers of 1000, the greatest first.
const UNITS: [u64; 7] = [
    1_000_000_000_000_000_000,
    1_000_000_000_000_000,
    1_000_000_000_000,
    1_000_000_000,
    1_000_000,
    1_000,
    1,
];

/// Adds an element with this text.
pub(crate) fn put<T: Display + Drop>(page: &mut Document, tag: Tag, text: T) {
    page.open(tag);
    page.text(text);
    page.close();
}

/// Adds an element of a class with this text.
pub(crate) fn put_as<T: Display + Drop>(page: &mut Document, tag: Tag, class: Class, text: T) {
    page.open_as(tag, class);
    page.text(text);
    page.close();
}

/// Adds a text that others wrote. Its direction doesn't change that of its surroundings.
pub(crate) fn put_name(page: &mut Document, name: &str) {
    put_as(page, Tag::Span, Class::Name, Printed(name));
}

/// Adds a time in UTC by RFC 3339 without its fraction, such as `2026-12-01 10:57:04`. What isn't
/// one is added as it is.
pub(crate) fn put_time(page: &mut Document, time: &str) {
    if time.ends_with('Z') && second_of_time(time).is_some() {
        page.text(time.get(0..10).unwrap_or(""));
        page.text(" ");
        page.text(time.get(11..19).unwrap_or(""));
    } else {
        put_name(page, time);
    }
}

/// Adds a muted paragraph.
pub(crate) fn remark<T: Display + Drop>(page: &mut Document, text: T) {
    put_as(page, Tag::Paragraph, Class::Muted, text);
    page.line();
}

/// Opens a table with these heads of columns. Those from the place `numbers` on are of numbers.
pub(crate) fn open_table(page: &mut Document, heads: &[&str], numbers: usize) {
    page.open_as(Tag::Division, Class::Wide);
    page.open(Tag::Table);
    page.open(Tag::TableHead);
    page.open(Tag::TableRow);
    for (place, head) in heads.iter().enumerate() {
        if place < numbers {
            put(page, Tag::TableHeading, *head);
        } else {
            put_as(page, Tag::TableHeading, Class::Number, *head);
        }
    }
    page.close();
    page.close();
    page.line();
    page.open(Tag::TableBody);
    page.line();
}

/// Closes the table that was opened last.
pub(crate) fn close_table(page: &mut Document) {
    page.close();
    page.close();
    page.close();
    page.line();
}

/// Adds the cell of a number, such as `34,436`.
pub(crate) fn number_cell(page: &mut Document, n: u64) {
    page.open_as(Tag::TableCell, Class::Number);
    put_number(page, n);
    page.close();
}

/// Adds a number, with a comma after its thousands, millions and so on.
pub(crate) fn put_number(page: &mut Document, n: u64) {
    let mut has_begun = false;
    for unit in UNITS {
        let group = n / unit.max(1) % 1000;
        if has_begun {
            page.text(format_args!(",{group:03}"));
        } else if group > 0 || unit == 1 {
            page.text(group);
            has_begun = true;
        }
    }
}

/// Adds the cell of a share, such as `0.78 %`; an empty cell if the whole is 0.
pub(crate) fn share_cell(page: &mut Document, class: Class, n: u64, whole: u64) {
    page.open_as(Tag::TableCell, class);
    put_share(page, n, whole);
    page.close();
}

/// Adds the longest wait, such as `Clients waited up to 2.31 seconds`, cut after two digits.
pub(crate) fn put_wait(page: &mut Document, wait: u64) {
    let seconds = wait / 1000000;
    let hundredths = wait / 10000 % 100;
    page.text(format_args!("Clients waited up to {seconds}.{hundredths:02} seconds"));
}

/// Adds a share to the innermost element, cut after two digits; nothing if the whole is 0.
pub(crate) fn put_share(page: &mut Document, n: u64, whole: u64) {
    if whole == 0 {
        return;
    }
    let hundredths = n as u128 * 10000 / whole as u128;
    let percent = hundredths / 100;
    let rest = hundredths % 100;
    page.text(format_args!("{percent}.{rest:02} %"));
}
