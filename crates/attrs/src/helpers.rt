//! What a program may query by CALL: whether an attribute has some bytes, its length, and a bucket
//! by the program's own salt. Each has a result for any arguments, and allocates nothing.

ghost use Rattle.std.specs.Prelude.{◌≡◌};
ghost use Rattle.attrs.specs.Helpers.{attr_is, attr_len, bucket_of};

use crate::attributes::Attrs;
use crate::bucket::{Bucket, four_digits};
use crate::hash::fnv1a;

/// CALL 2: 1 if attribute `number` has exactly these bytes, otherwise 0. No attribute has a number
/// above 6. The number is compared in all of its 64 bits.
pub fn helper_attr_is(attrs: &Attrs, number: u64, bytes: &[u8]) -> u64
    ensures { result ≡ attr_is attrs.now number bytes.now }
{
    match attrs.attribute(number) {
        Some(text) if text.as_bytes() == bytes => 1,
        _ => 0,
    }
}

/// CALL 3: the length of attribute `number` in bytes, 0 to 1024; 0 if the number is unknown.
pub fn helper_attr_len(attrs: &Attrs, number: u64) -> u64
    ensures { result ≡ attr_len attrs.now number }
{
    match attrs.attribute(number) {
        Some(text) => text.len() as u64,
        None => 0,
    }
}

/// CALL 4: a bucket from 0 to 9999 that depends only on the app's bucket and the salt. Programs
/// with different salts divide the apps independently.
pub fn helper_bucket(attrs: &Attrs, salt: u64) -> u64
    ensures { result ≡ bucket_of attrs.now salt }
{
    let mut bytes = [0; 12];
    bytes[..4].copy_from_slice(&four_digits(attrs.context().bucket));
    bytes[4..].copy_from_slice(&salt.to_le_bytes());
    fnv1a(&bytes) % Bucket::COUNT as u64
}
