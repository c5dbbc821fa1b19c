//! The loads that no step of a folder explains: what they loaded neither is in place, nor was found
//! or left by one of the last steps.

ghost use Rattle.std.specs.Prelude.{◌≡◌};
ghost use Rattle.std.specs.List.{list_any};
ghost use Rattle.report_page.specs.Digests as specs;

use crate::folder::{FolderDigests, FolderFacts};
use moments::second_of_time;
use report::{LineQuestion, Question, Report};
use std::alloc::{AllocError, Global};

/// Of each load that no step explains its row with the digest. A load before the first step that is
/// known isn't among them, nor is one without a digest.
pub(crate) fn unexplained_loads<'a>(
    alloc: Global,
    report: &'a Report,
    folder: Option<&FolderFacts>,
) -> Result<Vec<&'a str>, AllocError> {
    let mut loads = Vec::new(alloc);
    let Some(folder) = folder else {
        return Ok(loads);
    };
    if let Some(tally) = report.tally(Question::Line(LineQuestion::LoadDigest)) {
        for (row, _count) in tally.rows().iter() {
            if is_unexplained(&folder.digests, row.as_str()) {
                loads.push(row.as_str())?;
            }
        }
    }
    Ok(loads)
}

// Whether no step explains the load of a row: its time, its generation and its digest.
fn is_unexplained(known: &FolderDigests, row: &str) -> bool {
    let Some((time, others)) = row.split_once('\t') else {
        return false;
    };
    let Some((_generation, digest)) = others.split_once('\t') else {
        return false;
    };
    is_judged(known, time) && !has_digest(known, digest)
}

// Whether a load at this time may be judged.
fn is_judged(known: &FolderDigests, time: &str) -> bool {
    let Some(since) = known.since else {
        return false;
    };
    match second_of_time(time) {
        Some(second) => is_from(since, second),
        None => false,
    }
}

// Whether a second is this one, or a later one.
fn is_from(since: u64, second: i64) -> bool {
    match u64::try_from(second) {
        Ok(second) => second >= since,
        Err(_) => false,
    }
}

// Whether a digest is one of these.
fn has_digest(known: &FolderDigests, digest: &str) -> bool
    ensures { result ≡ specs.has_digest known.now digest.now }
{
    match &known.in_place {
        Some(text) if text.as_str() == digest => true,
        _ => has_text(known.left.as_slice(), digest),
    }
}

fn has_text(texts: &[String], wanted: &str) -> bool
    ensures { result ≡ list_any (specs.is_text wanted.now) texts.now }
{
    let mut left = texts;
    while let [text, others @ ..] = left {
        if text.as_str() == wanted {
            return true;
        }
        left = others;
    }
    false
}
