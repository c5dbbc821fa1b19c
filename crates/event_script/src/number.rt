//! The numbers of a script.

ghost use Rattle.std.specs.Prelude.{◌≡◌};
ghost use Rattle.event_script.specs.Script as specs;

use attrs::Bucket;
use lexing::decimal_within;

/// The number of a worker, of 32 bits.
pub fn worker_number(text: &str) -> Option<u32>
    ensures { result ≡ specs.worker_number text.now }
{
    Some(decimal_within(text, 0, 4294967295)? as u32)
}

/// The number of Steps, 1 to 4097.
pub fn step_count(text: &str) -> Option<u32>
    ensures { result ≡ specs.step_count text.now }
{
    Some(decimal_within(text, 1, 4097)? as u32)
}

/// The number of a bucket, at most 9999.
pub fn bucket_number(text: &str) -> Option<Bucket>
    ensures { result ≡ specs.bucket_number text.now }
{
    let number = decimal_within(text, 0, 9999)?;
    Some(Bucket::new(number as u16))
}
