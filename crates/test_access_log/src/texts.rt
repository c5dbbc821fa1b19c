//! Texts in a line: no character of a client that could control a terminal reaches it.

use crate::given::is_line;
use access_log::LogEvent;
use std::alloc::{AllocError, Global};
use std::test::Fail;

/// A text, and what is between its quotes. The rows also have the last character before each range
/// that is escaped and the first one after it.
const TEXTS: &[(&str, &str)] = &[
    ("", ""),
    (
        "a plain text of more than 16 bytes",
        "a plain text of more than 16 bytes",
    ),
    ("\"\\/", "\\\"\\\\/"),
    (
        "\u{0}\u{8}\t\n\u{c}\r\u{1f} ",
        "\\u0000\\b\\t\\n\\f\\r\\u001f ",
    ),
    ("~\u{7f}\u{80}\u{9b}31m", "~\\u007f\\u0080\\u009b31m"),
    ("\u{9f}\u{a0}", "\\u009f\u{a0}"),
    ("\u{61b}\u{61c}\u{61d}", "\u{61b}\\u061c\u{61d}"),
    (
        "\u{200d}\u{200e}\u{200f}\u{2010}",
        "\u{200d}\\u200e\\u200f\u{2010}",
    ),
    (
        "\u{2027}\u{2028}\u{2029}\u{202a}",
        "\u{2027}\\u2028\\u2029\\u202a",
    ),
    (
        "\u{202b}\u{202c}\u{202d}\u{202e}\u{202f}",
        "\\u202b\\u202c\\u202d\\u202e\u{202f}",
    ),
    ("\u{2065}\u{2066}\u{2067}", "\u{2065}\\u2066\\u2067"),
    ("\u{2068}\u{2069}\u{206a}", "\\u2068\\u2069\u{206a}"),
    (
        "\u{e9}\u{20ac}\u{db}\u{fffd}\u{1f600}",
        "\u{e9}\u{20ac}\u{db}\u{fffd}\u{1f600}",
    ),
    ("seven..\u{7f}", "seven..\\u007f"),
    ("fifteen bytes..\u{7f}", "fifteen bytes..\\u007f"),
    ("\u{7f}seventeen bytes..", "\\u007fseventeen bytes.."),
    (
        "it stands in the middle\u{9b}, and not at an end",
        "it stands in the middle\\u009b, and not at an end",
    ),
];

/// Whether a text is spelled like this.
pub(crate) fn is_spelled(alloc: Global, text: &str, spelled: &str) -> Result<bool, AllocError> {
    let wanted = format!(in alloc; "\"unaccepted\",\"reason\":\"{spelled}\"}}")?;
    is_line(alloc, &LogEvent::Unaccepted(text), &wanted)
}

#[test]
fn texts_change_no_terminal(rt: HostRuntime) -> Result<(), Fail> {
    for (text, spelled) in TEXTS {
        assert!(rt; is_spelled(rt.alloc(), *text, *spelled)?, "{spelled}");
    }
    Ok(())
}
