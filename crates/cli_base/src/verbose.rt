//! The option by which a refusal has a second line.

ghost use Rattle.std.specs.Prelude.{◌≡◌, map};
ghost use Rattle.cli_base.specs.Verbose as specs;

use std::convert::AsStr;

/// Whether one of the words before the first `--` is `--verbose`.
pub fn is_verbose<S: AsStr>(words: &[S]) -> bool
    ensures { result ≡ specs.is_verbose (map S.text words.now) }
{
    let mut left = words;
    while let [word, rest @ ..] = left {
        if word.as_str() == "--" {
            return false;
        }
        if word.as_str() == "--verbose" {
            return true;
        }
        left = rest;
    }
    false
}
