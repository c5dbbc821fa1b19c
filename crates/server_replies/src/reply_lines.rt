//! The lines of a reply, and what they say after their first words.

ghost use Rattle.std.specs.Prelude.{◌≡◌, IfOk, map};
ghost use Rattle.std.specs.Option.{option_copied};
ghost use Rattle.std.specs.Str.Lines.{lines};
ghost use Rattle.server_replies.specs.Replies as specs;

use std::alloc::{AllocError, Global};

/// The lines of a text.
// open: whether an allocation fails, its one error.
pub fn lines_of<'a>(alloc: Global, text: &'a str) -> Result<Vec<&'a str>, AllocError>
    ensures { IfOk result (λ found. map (λ line. line.now) found.items ≡ lines text.now) }
{
    text.lines().collect(alloc)
}

/// What follows the word in a line whose first word it is.
pub fn text_after<'a>(word: &str, line: &'a str) -> Option<&'a str>
    ensures { option_copied result ≡ specs.text_after word.now line.now }
{
    match line.split_once(' ') {
        Some((first, rest)) => { if first == word { Some(rest) } else { None } }
        None => None,
    }
}

/// What follows the word in the first line whose first word it is.
pub fn first_after<'a>(word: &str, lines: &[&'a str]) -> Option<&'a str>
    ensures { option_copied result
        ≡ specs.first_after word.now (map (λ line. line.now) lines.now) }
{
    let mut left = lines;
    while let [line, rest @ ..] = left {
        if let Some(text) = text_after(word, line) {
            return Some(text);
        }
        left = rest;
    }
    None
}

/// The time in `TIME PATH`, what follows `loaded`.
pub fn time_of_load<'a>(loaded: &'a str) -> &'a str
    ensures { result.now ≡ specs.time_of_load loaded.now }
{
    match loaded.split_once(' ') {
        Some((time, _path)) => time,
        None => loaded,
    }
}

/// The path in it; empty without a blank.
pub fn path_of_load<'a>(loaded: &'a str) -> &'a str
    ensures { result.now ≡ specs.path_of_load loaded.now }
{
    match loaded.split_once(' ') {
        Some((_time, path)) => path,
        None => "",
    }
}
