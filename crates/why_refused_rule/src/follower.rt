//! The words and kinds of words that may follow a prefix of a rule, and how they are printed.

use std::alloc::AllocError;
use std::fmt::Write;

/// A word of a rule, or a sample of a kind of words; empty for the end of the rule's text.
#[derive(Clone, Copy)]
pub struct Sample(pub &'static str);

/// Each word of a rule once, and a sample of each kind of words, in the order of printing. The name
/// `mod` has a number, since `mod` may also be an array.
pub static SAMPLES: [Sample; 29] = [
    Sample("when"),
    Sample("count"),
    Sample("otherwise"),
    Sample("none"),
    Sample("offer"),
    Sample("and"),
    Sample("or"),
    Sample("not"),
    Sample("version"),
    Sample("bucket"),
    Sample("today"),
    Sample("installed"),
    Sample("flag"),
    Sample("attr"),
    Sample("take"),
    Sample("is"),
    Sample("mod 1"),
    Sample("("),
    Sample(")"),
    Sample("["),
    Sample("]"),
    Sample(","),
    Sample(";"),
    Sample("<"),
    Sample("a"),
    Sample("1"),
    Sample("1.0"),
    Sample("\"\""),
    Sample(""),
];

fn push_sample(text: &mut String, sample: Sample) -> Result<(), AllocError> {
    match sample.0 {
        "mod 1" => text.push_str("\"mod\""),
        "<" => text.push_str("a comparison"),
        "a" => text.push_str("a name"),
        "1" => text.push_str("a number"),
        "1.0" => text.push_str("a version"),
        "\"\"" => text.push_str("a text in \"\""),
        "" => text.push_str("the text's end"),
        word => write!(text, "\"{word}\""),
    }
}

/// Appends what these are samples of as a list, such as `"offer", "and" or "or"`.
pub(crate) fn push_samples(text: &mut String, samples: &[Sample]) -> Result<(), AllocError> {
    for place in 0..samples.len() {
        push_sample(text, samples[place])?;
        text.push_str(match samples.len() - place {
            1 => "",
            2 => " or ",
            _ => ", ",
        })?;
    }
    Ok(())
}

/// Whether a test is expected: then the word `flag` is.
pub(crate) fn expects_test(samples: &[Sample]) -> bool {
    for sample in samples {
        if sample.0 == "flag" {
            return true;
        }
    }
    false
}
