//! The names that a line itself counts under, by question.

ghost use Rattle.std.specs.Prelude.{◌≡◌, IfOk};
ghost use Rattle.std.specs.String.{string_bytes};
ghost use Rattle.report.specs.Names as specs;

use crate::log_line::LogLine;
use crate::name_text::{decimal, one, text_or_mark, three, two};
use crate::question::LineQuestion;
use std::alloc::{AllocError, Global};

/// Whether the question is about this line.
pub(crate) fn is_about_line(question: LineQuestion, line: &LogLine<'_>) -> bool
    ensures { result ≡ specs.is_about_line question line.now }
{
    match question {
        LineQuestion::Kind => line.kind.is_some(),
        LineQuestion::Refusal => line.is_kind("connection") && line.refusal.is_some(),
        LineQuestion::Load => line.is_kind("load") && line.generation.is_some(),
        LineQuestion::LoadDigest => {
            line.is_kind("load") && line.generation.is_some() && line.digest.is_some()
        }
    }
}

/// The name of a line that the question is about.
pub(crate) fn line_name_of(
    alloc: Global,
    question: LineQuestion,
    line: &LogLine<'_>,
) -> Result<String, AllocError>
    ensures { IfOk result (λ name. string_bytes name
        ≡ specs.line_name_of question line.now) }
{
    match question {
        LineQuestion::Kind => one(alloc, text_or_mark(line.kind)),
        LineQuestion::Refusal => refused(alloc, line),
        LineQuestion::Load => loaded(alloc, line),
        LineQuestion::LoadDigest => loaded_digest(alloc, line),
    }
}

fn refused(alloc: Global, line: &LogLine<'_>) -> Result<String, AllocError>
    ensures { IfOk result (λ name. string_bytes name ≡ specs.refused line.now) }
{
    let refusal = text_or_mark(line.refusal);
    match line.status {
        Some(status) => two(alloc, decimal(alloc, status)?.as_str(), refusal),
        None => two(alloc, "none", refusal),
    }
}

fn loaded(alloc: Global, line: &LogLine<'_>) -> Result<String, AllocError>
    ensures { IfOk result (λ name. string_bytes name ≡ specs.loaded line.now) }
{
    let time = text_or_mark(line.time);
    let path = text_or_mark(line.path);
    let generation = decimal(alloc, line.generation.unwrap_or(0))?;
    three(alloc, time, generation.as_str(), path)
}

fn loaded_digest(alloc: Global, line: &LogLine<'_>) -> Result<String, AllocError>
    ensures { IfOk result (λ name. string_bytes name ≡ specs.loaded_digest line.now) }
{
    let time = text_or_mark(line.time);
    let digest = text_or_mark(line.digest);
    let generation = decimal(alloc, line.generation.unwrap_or(0))?;
    three(alloc, time, generation.as_str(), digest)
}
