//! Whether two tests of rules are the same.

ghost use Rattle.std.specs.Prelude.{◌≡◌, true};
ghost use Rattle.rule_lang.specs.declared.test.Test.TheVariants as tests;

use attrs::{Attribute, Flag};
use cells::ArrayName;
use rule_lang::{Comparison, Literal, Test};

fn is_version(other: &Test, comparison: Comparison, version: [u32; 4]) -> bool
    ensures { result ≡ true → other.now ≡ tests.Version comparison version }
{
    match other {
        Test::Version {
            comparison: second,
            version: numbers,
        } => *second == comparison && *numbers == version,
        _ => false,
    }
}

/// Whether these are the same salt, or both none.
pub(crate) fn is_same_salt(salt: Option<u64>, other: Option<u64>) -> bool
    ensures { result ≡ true → salt ≡ other }
{
    match (salt, other) {
        (None, None) => true,
        (Some(salt), Some(other)) => salt == other,
        _ => false,
    }
}

fn is_same_modulus(modulus: Option<u32>, other: Option<u32>) -> bool
    ensures { result ≡ true → modulus ≡ other }
{
    match (modulus, other) {
        (None, None) => true,
        (Some(modulus), Some(other)) => modulus == other,
        _ => false,
    }
}

fn is_bucket(
    other: &Test,
    salt: Option<u64>,
    modulus: Option<u32>,
    comparison: Comparison,
    number: u32,
) -> bool
    ensures { result ≡ true → other.now ≡ tests.Bucket salt modulus comparison number }
{
    match other {
        Test::Bucket {
            salt: own,
            modulus: divisor,
            comparison: second,
            number: against,
        } => {
            is_same_salt(*own, salt)
                && is_same_modulus(*divisor, modulus)
                && *second == comparison
                && *against == number
        }
        _ => false,
    }
}

fn is_today(other: &Test, comparison: Comparison, number: u32) -> bool
    ensures { result ≡ true → other.now ≡ tests.Today comparison number }
{
    match other {
        Test::Today {
            comparison: second,
            number: against,
        } => *second == comparison && *against == number,
        _ => false,
    }
}

fn is_installed(other: &Test, comparison: Comparison, number: u32) -> bool
    ensures { result ≡ true → other.now ≡ tests.Installed comparison number }
{
    match other {
        Test::Installed {
            comparison: second,
            number: against,
        } => *second == comparison && *against == number,
        _ => false,
    }
}

fn is_flag(other: &Test, flag: Flag) -> bool
    ensures { result ≡ true → other.now ≡ tests.Flag flag }
{
    match other {
        Test::Flag(own) => *own == flag,
        _ => false,
    }
}

fn is_attr(other: &Test, attribute: Attribute, text: &Literal) -> bool
    ensures { result ≡ true → other.now ≡ tests.Attr attribute text.now }
{
    match other {
        Test::Attr {
            attribute: own,
            text: literal,
        } => *own == attribute && literal.as_str() == text.as_str(),
        _ => false,
    }
}

fn is_take(other: &Test, array: &ArrayName, index: u16) -> bool
    ensures { result ≡ true → other.now ≡ tests.Take array.now index }
{
    match other {
        Test::Take {
            array: own,
            index: place,
        } => own.as_str() == array.as_str() && *place == index,
        _ => false,
    }
}

/// Whether two tests are the same. If it isn't decided, the result is no.
pub(crate) fn is_same_test(test: &Test, other: &Test) -> bool
    ensures { result ≡ true → other.now ≡ test.now }
{
    match test {
        Test::Version {
            comparison,
            version,
        } => is_version(other, *comparison, *version),
        Test::Bucket {
            salt,
            modulus,
            comparison,
            number,
        } => is_bucket(other, *salt, *modulus, *comparison, *number),
        Test::Today { comparison, number } => is_today(other, *comparison, *number),
        Test::Installed { comparison, number } => is_installed(other, *comparison, *number),
        Test::Flag(flag) => is_flag(other, *flag),
        Test::Attr { attribute, text } => is_attr(other, *attribute, text),
        Test::Take { array, index } => is_take(other, array, *index),
    }
}
