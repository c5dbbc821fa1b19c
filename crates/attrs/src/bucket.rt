//! The bucket of an app, of 10000. It is the one that the app's cohort names, or otherwise a hash
//! of the request's id or its session's. So all apps of one request are in one bucket, unless
//! cohorts name others.

ghost use Rattle.std.specs.Prelude.{◌≡◌, ℕ, ◌<◌, unwrap_or};
ghost use Rattle.attrs.specs.Bucket as specs;

use crate::facts::{AppFacts, RequestFacts};
use crate::hash::fnv1a;
use crate::text::lent;
use crate::version::read_number;
use std::marker::Model;

/// The length of a cohort that names a bucket.
const COHORT_LENGTH: usize = 6;

/// A bucket by its number, 0 to 9999.
#[derive(Clone, Copy)]
pub struct Bucket {
    value: u16,
}

impl Model for Bucket {
    ghost use Rattle.std.specs.Prelude.{ℕ, ◌<◌};

    ghost Value = { ℕ };

    ghost view = { λ b. b.value };

    ghost inverse = { λ n. record { value = n } };

    ghost invariant = { λ b. b.value < 10000 };
}

impl Bucket {
    /// How many buckets there are.
    pub const COUNT: u16 = 10000;

    /// The bucket of this number.
    pub fn new(number: u16) -> Bucket
        requires { number < 10000 }
        ensures { result ≡ number }
    {
        Bucket { value: number }
    }

    /// The number of the bucket, 0 to 9999.
    pub fn number(&self) -> u16
        ensures number { result ≡ self.now }
        ensures range { result < 10000 }
    {
        self.value
    }
}

/// A bucket as four ASCII digits, as in a cohort after its `b:`.
pub fn four_digits(bucket: u16) -> [u8; 4]
    ensures { result ≡ specs.four_digits bucket }
{
    [
        last_digit(bucket / 1000),
        last_digit(bucket / 100),
        last_digit(bucket / 10),
        last_digit(bucket),
    ]
}

// The last digit of a number, in ASCII.
fn last_digit(number: u16) -> u8
    ensures { result ≡ specs.last_digit number }
{
    b'0' + (number % 10) as u8
}

/// Law: an app that sends back the cohort of its reply, `b:` and its bucket's digits, stays in that
/// bucket.
pub fn cohort_preserves_bucket()
    ensures { (n : ℕ) → n < 10000 → specs.cohort_bucket (specs.cohort_of_bucket n) ≡ Some n }
{}

/// The bucket of an app of a request whose hashed bucket is known.
pub fn named_or_hashed(app: &AppFacts, hashed: Bucket) -> Bucket
    ensures { result ≡ unwrap_or (specs.named_bucket app.now) hashed }
{
    named_bucket(app).unwrap_or(hashed)
}

/// The bucket of all apps of a request that name none: a hash of the request's id, or its
/// session's. Its time grows with the length of that id, so for many apps it should be computed
/// once.
pub fn hashed_bucket(request: &RequestFacts) -> Bucket
    ensures { result ≡ specs.hashed_bucket request.now }
{
    let hash = fnv1a(requester_id(request).as_bytes());
    Bucket::new((hash % Bucket::COUNT as u64) as u16)
}

/// The bucket that the app's cohort names, if it does.
pub(crate) fn named_bucket(app: &AppFacts) -> Option<Bucket>
    ensures { result ≡ specs.named_bucket app.now }
{
    cohort_bucket(lent(&app.cohort)?)
}

/// The bucket that a cohort names: `b:` and exactly four ASCII digits.
pub fn cohort_bucket(cohort: &str) -> Option<Bucket>
    ensures { result ≡ specs.cohort_bucket cohort.now }
{
    if cohort.len() != COHORT_LENGTH {
        return None;
    }
    match read_number(cohort.strip_prefix("b:")?) {
        Some(bucket) => Some(Bucket::new(bucket as u16)),
        None => None,
    }
}

// The request's id, or its session's if that is empty or absent.
fn requester_id(request: &RequestFacts) -> &str
    ensures { result.now ≡ specs.requester_id request.now }
{
    match lent(&request.requestid) {
        Some(id) if !id.is_empty() => id,
        _ => lent(&request.sessionid).unwrap_or(""),
    }
}
