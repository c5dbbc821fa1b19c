//! Tests of a number. Nothing is proved of them here: the condition is read back.

use crate::intervals::NumberRange;
use crate::test_texts::TestTexts;
use attrs::{Context, Flag};
use diff_space::{Coordinate, Dimension};
use rule_lang::{Comparison, Test};

const WORD: u128 = 0x1_0000_0000;

const UNKNOWN_DAY: u128 = Context::UNKNOWN_DAY as u128;

fn digit(number: u128) -> u32 {
    (number % WORD) as u32
}

// The four numbers of a version's number.
fn version_of(number: u128) -> [u32; 4] {
    let upper = number / WORD;
    let second = upper / WORD;
    [
        digit(second / WORD),
        digit(second),
        digit(upper),
        digit(number),
    ]
}

fn test_of(of: &Coordinate, comparison: Comparison, number: u128) -> Option<Test> {
    let low = digit(number);
    match of {
        Coordinate::Version => Some(Test::Version {
            comparison,
            version: version_of(number),
        }),
        Coordinate::Today => Some(Test::Today {
            comparison,
            number: low,
        }),
        Coordinate::Installed => Some(Test::Installed {
            comparison,
            number: low,
        }),
        Coordinate::Bucket { salt, modulus } => Some(Test::Bucket {
            salt: *salt,
            modulus: *modulus,
            comparison,
            number: low,
        }),
        Coordinate::Flag(_) => None,
        Coordinate::Text(_) => None,
        Coordinate::Takes { .. } => None,
    }
}

fn is_unknown(of: &Coordinate, number: u128) -> bool {
    match of {
        Coordinate::Installed => number == UNKNOWN_DAY,
        _ => false,
    }
}

fn is_day(of: &Coordinate) -> bool {
    match of {
        Coordinate::Today | Coordinate::Installed => true,
        _ => false,
    }
}

/// Adds the test of the coordinate's number against this one, by `Eq`, `Ne`, `Ge` or `Lt`. The
/// number of an unknown day of installation is the greatest: other days are below it.
pub(crate) fn add_comparison(
    texts: &mut TestTexts,
    of: &Coordinate,
    comparison: Comparison,
    number: u128,
) {
    if is_unknown(of, number) {
        if let Comparison::Eq = comparison {
            texts.push("not ");
        }
        return texts.add_test(Test::Flag(Flag::InstalldateKnown));
    }
    if let Some(test) = test_of(of, comparison, number) {
        texts.add_test(test);
    }
    if is_day(of) {
        texts.note_day(digit(number));
    }
}

/// Adds the test or the two tests of an interval. Two are joined by `and` within a text of several
/// intervals, and are texts of their own otherwise.
pub(crate) fn add_interval(
    texts: &mut TestTexts,
    dimension: &Dimension,
    interval: NumberRange,
    is_alone: bool,
) {
    let of = &dimension.of;
    if interval.is_single() {
        return add_comparison(texts, of, Comparison::Eq, interval.low);
    }
    let has_low = interval.low != dimension.begin(0);
    let has_high = interval.high != dimension.last;
    if has_low {
        add_comparison(texts, of, Comparison::Ge, interval.low);
    }
    if has_low && has_high && is_alone {
        texts.end();
    } else if has_low && has_high {
        texts.push(" and ");
    }
    if has_high {
        let end = interval.high.saturating_add(1);
        add_comparison(texts, of, Comparison::Lt, end);
    }
}
