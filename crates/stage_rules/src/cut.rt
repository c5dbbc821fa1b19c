//! A text around the digits that follow a `<`.

ghost use Rattle.std.specs.Prelude.{◌≡◌, IfSome};
ghost use Rattle.std.specs.Str.{all_ascii_digits};
ghost use Rattle.stage_rules.specs.Raises.{IsCut};

/// Some digits of a text, and the text before and after them.
#[derive(Clone, Copy)]
pub(crate) struct Cut<'a> {
    pub before: &'a str,
    pub digits: &'a str,
    pub after: &'a str,
}

fn are_digits(bytes: &[u8]) -> bool
    ensures { result ≡ all_ascii_digits bytes.now }
{
    let mut left = bytes;
    while let [first, others @ ..] = left {
        if !first.is_ascii_digit() {
            return false;
        }
        left = others;
    }
    true
}

fn digit_count(text: &str) -> usize {
    let bytes = text.as_bytes();
    match bytes.iter().position(|byte| !byte.is_ascii_digit()) {
        Some(count) => count,
        None => bytes.len(),
    }
}

// Whether a comment begins in a line: at a `#` outside of quotation marks.
fn has_comment(line: &str) -> bool {
    let mut quoted = false;
    for byte in line.as_bytes() {
        match *byte {
            b'"' => quoted = !quoted,
            b'#' if !quoted => return true,
            _ => {}
        }
    }
    false
}

fn last_line(text: &str) -> &str {
    match text.rsplit_once('\n') {
        Some((_, line)) => line,
        None => text,
    }
}

// Whether a number begins between these texts, after a `<` and blanks, and not in a comment. This
// only saves time: a text with another number in a comment doesn't read back.
fn begins_number(before: &str, rest: &str) -> bool {
    digit_count(rest) > 0 && before.trim_end().ends_with('<') && !has_comment(last_line(before))
}

/// The text around the digits at this place, if they are the first ones after a `<`, with only
/// blanks and line ends between.
pub(crate) fn cut_at<'a>(text: &'a str, place: usize) -> Option<Cut<'a>>
    ensures { IfSome result (λ cut. IsCut text.now cut.before.now cut.digits.now cut.after.now) }
{
    let (before, rest) = text.split_at_checked(place)?;
    if !begins_number(before, rest) {
        return None;
    }
    let (digits, after) = rest.split_at_checked(digit_count(rest))?;
    if digits.is_empty() || !are_digits(digits.as_bytes()) {
        return None;
    }
    Some(Cut {
        before,
        digits,
        after,
    })
}
