//! The cohort in an app's reply, which names its bucket.

ghost use Rattle.std.specs.Prelude.{◌≡◌};
ghost use Rattle.std.specs.Str.{IsAscii};
ghost use Rattle.attrs.specs.Bucket as specs;

use attrs::{Bucket, four_digits};

/// `b:` and the four digits of the bucket.
#[tactic(auto, using(crate::proofs::Cohorts::cohort_is_ascii))]
pub fn cohort_text(bucket: Bucket) -> [u8; 6]
    ensures value { result ≡ specs.cohort_of_bucket bucket }
    ensures ascii { IsAscii result }
{
    let digits = four_digits(bucket.number());
    [b'b', b':', digits[0], digits[1], digits[2], digits[3]]
}

/// Bytes of ASCII as a text.
#[tactic(auto, using(crate::proofs::Cohorts::is_text))]
pub fn as_text(bytes: &[u8]) -> &str
    requires { IsAscii bytes.now }
    ensures { result.now ≡ bytes.now }
{
    let Ok(text) = str::from_utf8(bytes) else {
        unreachable!()
    };
    text
}
