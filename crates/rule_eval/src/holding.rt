//! Whether a test holds.

ghost use Rattle.std.specs.Prelude.{◌≡◌, option_copied};
ghost use Rattle.rule_lang.specs.Meaning as meaning;
ghost use Rattle.rule_lang.specs.Shapes as shapes;

use crate::comparing::{allows, compare_versions, compares_so};
use attrs::{Attrs, helper_attr_is, helper_bucket};
use cells::{CellArray, Shape};
use rule_lang::{Test, array_named};

fn bucket_by(attrs: &Attrs, salt: Option<u64>) -> u64
    ensures { result ≡ meaning.bucket_by attrs.now salt }
{
    match salt {
        None => attrs.context().bucket as u64,
        Some(salt) => helper_bucket(attrs, salt),
    }
}

fn remainder(modulus: Option<u32>, number: u64) -> u64
    ensures { result ≡ meaning.remainder modulus number }
{
    match modulus {
        None => number,
        Some(0) => number,
        Some(modulus) => number % modulus as u64,
    }
}

/// The number that a test of the bucket compares: the app's bucket, or its bucket under the salt;
/// with a modulus the remainder, and with modulus 0 the number itself.
pub fn bucket_tested(attrs: &Attrs, salt: Option<u64>, modulus: Option<u32>) -> u64
    ensures { result ≡ meaning.remainder modulus (meaning.bucket_by attrs.now salt) }
{
    remainder(modulus, bucket_by(attrs, salt))
}

fn quota_of(array: Option<&CellArray>) -> u64
    ensures { result ≡ shapes.quota_of (option_copied array.entry) }
{
    match array {
        Some(array) => array.quota.unwrap_or(0),
        None => 0,
    }
}

/// The quota of the first array with this name: how many takes each cell grants. It is 0 if the
/// array has no quota, or doesn't exist.
pub fn quota_named(shape: &Shape, name: &str) -> u64
    ensures { result ≡ shapes.quota_of (shapes.array_named name.now shape.now.arrays) }
{
    quota_of(array_named(shape.arrays(), name))
}

/// Whether a test holds for an app. A take holds if its cell's reply, the value before it added 1,
/// is below the quota; no other test reads the reply.
pub fn test_holds(attrs: &Attrs, shape: &Shape, reply: u64, test: &Test) -> bool
    ensures { result ≡ meaning.test_holds attrs.now shape.now reply test.now }
{
    match test {
        Test::Version {
            comparison,
            version,
        } => allows(
            *comparison,
            compare_versions(attrs.context().version, *version),
        ),
        Test::Bucket {
            salt,
            modulus,
            comparison,
            number,
        } => compares_so(
            *comparison,
            bucket_tested(attrs, *salt, *modulus),
            *number as u64,
        ),
        Test::Today { comparison, number } => {
            let today = attrs.context().today as u64;
            compares_so(*comparison, today, *number as u64)
        }
        Test::Installed { comparison, number } => {
            let day = attrs.context().install_day as u64;
            compares_so(*comparison, day, *number as u64)
        }
        Test::Flag(flag) => attrs.context().flags & flag.bit() != 0,
        Test::Attr { attribute, text } => {
            let number = attribute.number() as u64;
            helper_attr_is(attrs, number, text.as_str().as_bytes()) == 1
        }
        Test::Take { array, .. } => reply < quota_named(shape, array.as_str()),
    }
}
