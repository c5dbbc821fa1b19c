//! The part of a long text that a line logs.

ghost use Rattle.std.specs.Prelude.{◌≡◌, ◌≤◌, ◌<◌, ℕ, take};
ghost use Rattle.std.specs.Str.{IsCharBoundary};
ghost use Rattle.access_log.specs.Excerpt.{IsExcerpt, IsBriefExcerpt};
ghost use Rattle.access_log.specs.Members as members;
ghost use Rattle.access_log.specs.TextSize.{text_size};

use crate::text_size::text_size;

/// The most bytes of a text that a line logs.
const EXCERPT_LIMIT: usize = 512;

/// The most bytes of a brief text in a line, escapes included.
const BRIEF_LIMIT: usize = 64;

/// The most bytes of a further member's text in a line, escapes included.
const SHORT_LIMIT: usize = 32;

/// The most bytes of a request's id in a line, escapes included.
const ID_LIMIT: usize = 16;

/// The first bytes of a text, and how many bytes the whole text has.
#[derive(Clone, Copy)]
pub struct Excerpt<'a> {
    pub text: &'a str,
    pub length: u64,
}

impl<'a> Excerpt<'a> {
    /// The longest prefix of whole characters within 512 bytes.
    pub fn of(text: &'a str) -> Excerpt<'a>
        ensures { IsExcerpt text.now result }
    {
        let end = text.floor_char_boundary(EXCERPT_LIMIT);
        Excerpt {
            text: &text[..end],
            length: text.len() as u64,
        }
    }

    /// The longest prefix of whole characters that takes at most 64 bytes in a line, escapes
    /// included.
    pub fn brief(text: &'a str) -> Excerpt<'a>
        ensures { IsBriefExcerpt 64 text.now result }
    {
        Excerpt {
            text: &text[..brief_end(text, BRIEF_LIMIT)],
            length: text.len() as u64,
        }
    }

    /// As `brief`, within 32 bytes.
    pub fn short(text: &'a str) -> Excerpt<'a>
        ensures { IsBriefExcerpt 32 text.now result }
    {
        Excerpt {
            text: &text[..brief_end(text, SHORT_LIMIT)],
            length: text.len() as u64,
        }
    }

    /// As `brief`, within 16 bytes.
    pub fn of_id(text: &'a str) -> Excerpt<'a>
        ensures { IsBriefExcerpt 16 text.now result }
    {
        Excerpt {
            text: &text[..brief_end(text, ID_LIMIT)],
            length: text.len() as u64,
        }
    }

    /// How many bytes of the text are left out.
    pub(crate) fn left_out(&self) -> u64
        ensures { result ≡ members.left_out self.now }
    {
        self.length.saturating_sub(self.text.len() as u64)
    }
}

// The end of the longest prefix that takes at most `most` bytes.
fn brief_end(text: &str, most: usize) -> usize
    ensures boundary { IsCharBoundary text.now result }
    ensures brief { text_size (take result text.now) ≤ most }
    ensures longest { (i : ℕ) → result < i → i ≤ most → IsCharBoundary text.now i
        → most < text_size (take i text.now) }
{
    let mut end = text.floor_char_boundary(most);
    while text_size(&text[..end]) > most {
        end = text.floor_char_boundary(end - 1);
    }
    end
}
