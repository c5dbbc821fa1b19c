//! FNV-1a with 64 bits, a hash that is the same in every build and on every machine.

ghost use Rattle.std.specs.Prelude.{◌≡◌};
ghost use Rattle.attrs.specs.Hash as specs;

const BASIS: u64 = 14695981039346656037;

const PRIME: u64 = 1099511628211;

/// The hash of bytes by FNV-1a with 64 bits. It allocates nothing.
pub fn fnv1a(bytes: &[u8]) -> u64
    ensures { result ≡ specs.fnv1a bytes.now }
{
    bytes
        .iter()
        .fold(BASIS, |hash, byte| with_byte(hash, *byte))
}

// The hash with one more byte.
fn with_byte(hash: u64, byte: u8) -> u64
    ensures { result ≡ specs.with_byte hash byte }
{
    (hash ^ byte as u64).wrapping_mul(PRIME)
}
