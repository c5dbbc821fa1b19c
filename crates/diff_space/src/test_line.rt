//! A test as a comparison of its dimension's number with another one.

ghost use Rattle.std.specs.Prelude.{◌≡◌, ℕ, List, IfSome, true};
ghost use Rattle.diff_space.specs.Coordinates as coordinates;
ghost use Rattle.diff_space.specs.Tests.{ComparesNumber};

use crate::coordinate::Coordinate;
use crate::number_line::version_number;
use attrs::{Attribute, Context, Flag};
use rule_lang::{Comparison, Literal, Test};

/// A comparison with a number.
#[derive(Clone, Copy)]
pub struct NumberComparison {
    pub comparison: Comparison,
    pub number: u128,
}

/// The index of a text among these, or their count if it is another one.
pub(crate) fn index_or_count(texts: &[Literal], text: &str) -> usize
    ensures { result ≡ coordinates.index_or_count texts.now text.now }
{
    let mut place: usize = 0;
    let mut left = texts;
    while let [literal, others @ ..] = left {
        if literal.as_str() == text {
            return place;
        }
        place += 1;
        left = others;
    }
    place
}

fn version_comparison(test: &Test) -> Option<NumberComparison>
    ensures { (texts : List (List ℕ))
        → IfSome result (ComparesNumber Coordinate.Version texts test.now) }
{
    match test {
        Test::Version {
            comparison,
            version,
        } => Some(NumberComparison {
            comparison: *comparison,
            number: version_number(*version),
        }),
        _ => None,
    }
}

fn today_comparison(test: &Test) -> Option<NumberComparison>
    ensures { (texts : List (List ℕ))
        → IfSome result (ComparesNumber Coordinate.Today texts test.now) }
{
    match test {
        Test::Today { comparison, number } => Some(NumberComparison {
            comparison: *comparison,
            number: *number as u128,
        }),
        _ => None,
    }
}

// The flag `installdate_known` is about the day of the installation.
fn installed_comparison(test: &Test) -> Option<NumberComparison>
    ensures { (texts : List (List ℕ))
        → IfSome result (ComparesNumber Coordinate.Installed texts test.now) }
{
    match test {
        Test::Installed { comparison, number } => Some(NumberComparison {
            comparison: *comparison,
            number: *number as u128,
        }),
        Test::Flag(Flag::InstalldateKnown) => Some(NumberComparison {
            comparison: Comparison::Lt,
            number: Context::UNKNOWN_DAY as u128,
        }),
        _ => None,
    }
}

fn is_same_salt(salt: Option<u64>, other: Option<u64>) -> bool
    ensures { result ≡ true → salt ≡ other }
{
    match (salt, other) {
        (None, None) => true,
        (Some(salt), Some(other)) => salt == other,
        _ => false,
    }
}

fn is_same_modulus(modulus: Option<u32>, other: Option<u32>) -> bool
    ensures { result ≡ true → modulus ≡ other }
{
    match (modulus, other) {
        (None, None) => true,
        (Some(modulus), Some(other)) => modulus == other,
        _ => false,
    }
}

fn bucket_comparison(
    salt: Option<u64>,
    modulus: Option<u32>,
    test: &Test,
) -> Option<NumberComparison>
    ensures { (texts : List (List ℕ))
        → IfSome result (ComparesNumber (Coordinate.Bucket salt modulus) texts test.now) }
{
    match test {
        Test::Bucket {
            salt: other,
            modulus: divisor,
            comparison,
            number,
        } => {
            if is_same_salt(salt, *other) && is_same_modulus(modulus, *divisor) {
                return Some(NumberComparison {
                    comparison: *comparison,
                    number: *number as u128,
                });
            }
            None
        }
        _ => None,
    }
}

fn flag_comparison(own: Flag, test: &Test) -> Option<NumberComparison>
    ensures { (texts : List (List ℕ))
        → IfSome result (ComparesNumber (Coordinate.Flag own) texts test.now) }
{
    match test {
        Test::Flag(flag) => {
            if own == *flag {
                return Some(NumberComparison {
                    comparison: Comparison::Ge,
                    number: 1,
                });
            }
            None
        }
        _ => None,
    }
}

fn text_comparison(own: Attribute, texts: &[Literal], test: &Test) -> Option<NumberComparison>
    ensures { IfSome result (ComparesNumber (Coordinate.Text own) texts.now test.now) }
{
    match test {
        Test::Attr { attribute, text } => {
            let place = index_or_count(texts, text.as_str());
            if own == *attribute && place < texts.len() {
                return Some(NumberComparison {
                    comparison: Comparison::Eq,
                    number: place as u128,
                });
            }
            None
        }
        _ => None,
    }
}

/// The comparison that a test makes with the number of a coordinate, if it is about that; none for
/// a take, whose number changes along a run, or for a text that isn't among these.
pub(crate) fn number_comparison_of(
    of: &Coordinate,
    texts: &[Literal],
    test: &Test,
) -> Option<NumberComparison>
    ensures { IfSome result (ComparesNumber of.now texts.now test.now) }
{
    match of {
        Coordinate::Version => version_comparison(test),
        Coordinate::Today => today_comparison(test),
        Coordinate::Installed => installed_comparison(test),
        Coordinate::Bucket { salt, modulus } => bucket_comparison(*salt, *modulus, test),
        Coordinate::Flag(flag) => flag_comparison(*flag, test),
        Coordinate::Text(attribute) => text_comparison(*attribute, texts, test),
        Coordinate::Takes { .. } => None,
    }
}
