//! The numbers of a version text: one to four decimal numbers joined by single dots. The text is
//! split at its dots, and each part is read as one number.

ghost use Rattle.std.specs.Prelude.{◌≡◌};
ghost use Rattle.attrs.specs.Version.{version_of, decimal_number};

/// The four numbers of a version, with 0 for missing ones, or `None` if the text isn't a version.
/// Leading zeros are allowed; a number has only ASCII digits, and is at most 4294967295.
pub fn read_version(text: &str) -> Option<[u32; 4]>
    ensures { result ≡ version_of text.now }
{
    let mut numbers = [0; 4];
    let mut count = 0;
    for part in text.split('.') {
        if count == 4 {
            return None;
        }
        numbers[count] = read_number(part)?;
        count += 1;
    }
    Some(numbers)
}

// One number. `parse` would also allow a plus sign.
pub(crate) fn read_number(part: &str) -> Option<u32>
    ensures { result ≡ decimal_number part.now }
{
    if part.starts_with('+') {
        return None;
    }
    part.parse().ok()
}
