//! The condition of a row as texts in the words of rules, which `and` joins. Nothing is proved of
//! them here: the condition is read back.

use crate::intervals::{NumberRange, interval_of, intervals_of};
use crate::line_tests::{add_comparison, add_interval};
use crate::matching::has_segment;
use crate::test_texts::TestTexts;
use attrs::{Attribute, Flag};
use diff_rules::SegmentSet;
use diff_space::{Coordinate, Dimension};
use rule_lang::{Comparison, Literal, Test};
use std::alloc::{AllocError, Global};

fn add_flag(texts: &mut TestTexts, flag: Flag, segments: &[u16]) {
    if !has_segment(segments, 1) {
        texts.push("not ");
    }
    texts.add_test(Test::Flag(flag));
    texts.end();
}

// ---- texts

// That the text is one of these.
fn add_named(texts: &mut TestTexts, attribute: Attribute, named: &[Literal], segments: &[u16]) {
    for k in 0..segments.len() {
        texts.begin_part(k, segments.len());
        if let Some(literal) = named.get(segments[k] as usize) {
            texts.add_attribute(attribute, literal);
        }
    }
    texts.end_parts(segments.len());
}

// That the text is none of those that are missing.
fn add_others(texts: &mut TestTexts, attribute: Attribute, named: &[Literal], segments: &[u16]) {
    for k in 0..named.len() {
        if !has_segment(segments, k) {
            texts.push("not ");
            texts.add_attribute(attribute, &named[k]);
            texts.end();
        }
    }
}

// The last segment is that of all other texts.
fn add_texts(texts: &mut TestTexts, attribute: Attribute, named: &[Literal], segments: &[u16]) {
    if has_segment(segments, named.len()) {
        add_others(texts, attribute, named, segments);
    } else {
        add_named(texts, attribute, named, segments);
    }
}

// ---- numbers

// Whether each segment that is missing has one number.
fn lack_numbers(dimension: &Dimension, segments: &[u16]) -> bool {
    for segment in 0..dimension.cells() {
        if !has_segment(segments, segment) && !interval_of(dimension, segment).is_single() {
            return false;
        }
    }
    true
}

// Whether it is shorter to rule the missing segments out than to name the intervals.
fn is_shorter(missing: usize, segments: &[u16], intervals: &[NumberRange]) -> bool {
    match intervals {
        [only] => missing == 1 && !has_segment(segments, 0) && !only.is_single(),
        several => missing > 0 && missing <= several.len(),
    }
}

fn add_missing(texts: &mut TestTexts, dimension: &Dimension, segments: &[u16]) {
    for segment in 0..dimension.cells() {
        if !has_segment(segments, segment) {
            let number = interval_of(dimension, segment).low;
            add_comparison(texts, &dimension.of, Comparison::Ne, number);
            texts.end();
        }
    }
}

fn add_intervals(texts: &mut TestTexts, dimension: &Dimension, intervals: &[NumberRange]) {
    let count = intervals.len();
    for k in 0..count {
        texts.begin_part(k, count);
        add_interval(texts, dimension, intervals[k], count == 1);
    }
    texts.end_parts(count);
}

// The shorter way to say which numbers are in the segments.
fn add_line(alloc: Global, texts: &mut TestTexts, dimension: &Dimension, segments: &[u16]) {
    let Ok(intervals) = intervals_of(alloc, dimension, segments) else {
        return texts.fail();
    };
    let missing = dimension.cells().saturating_sub(segments.len());
    if is_shorter(missing, segments, &intervals) && lack_numbers(dimension, segments) {
        add_missing(texts, dimension, segments);
    } else {
        add_intervals(texts, dimension, &intervals);
    }
}

// ---- sets

fn add_set(alloc: Global, texts: &mut TestTexts, dimension: &Dimension, segments: &[u16]) {
    match &dimension.of {
        Coordinate::Flag(flag) => add_flag(texts, *flag, segments),
        Coordinate::Text(attribute) => add_texts(texts, *attribute, &dimension.texts, segments),
        Coordinate::Takes { .. } => {}
        _ => add_line(alloc, texts, dimension, segments),
    }
}

/// The texts of all sets but those of cells that grant takes, in the order of the sets. The days
/// that they name are added to `days`.
pub(crate) fn conjuncts_of(
    alloc: Global,
    days: &mut Vec<u32>,
    dimensions: &[Dimension],
    sets: &[SegmentSet],
) -> Result<Vec<String>, AllocError> {
    let mut texts = TestTexts::new(alloc);
    for set in sets {
        if let Some(dimension) = dimensions.get(set.dimension) {
            add_set(alloc, &mut texts, dimension, &set.segments);
        }
    }
    texts.finish(days)
}
