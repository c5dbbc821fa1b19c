//! A file of a release.

ghost use Rattle.std.specs.Prelude.{◌≡◌};
ghost use Rattle.std.specs.List.{list_all};
ghost use Rattle.releases.specs.Release as specs;

use attrs::Text;
use std::marker::Model;

/// How many hexadecimal digits a SHA-256 has.
const HASH_LENGTH: usize = 64;

/// A file of a release, with the members that a reply has about it.
#[derive(Drop)]
pub struct Package {
    name: Text,
    hash_sha256: Text,
    size: u64,
    required: bool,
}

impl Model for Package {
    ghost use Rattle.releases.specs.Release as specs;

    ghost Value = { specs.Package };

    ghost view = { λ p. record {
      name = p.name;
      hash_sha256 = p.hash_sha256;
      size = p.size;
      required = p.required;
    } };

    ghost invariant = { λ p. specs.IsPackage p.hash_sha256 p.size };
}

impl Package {
    ghost use Rattle.releases.specs.Release as specs;

    /// Whether a text may be a SHA-256: 64 lower case hexadecimal digits.
    pub fn is_hash(text: &str) -> bool
        ensures { result ≡ specs.is_hash text.now }
    {
        let digits = text.as_bytes();
        digits.len() == HASH_LENGTH && are_hex_digits(digits)
    }

    /// A file with this name, hash and length in bytes, which a client must fetch if it is
    /// required. Doesn't allocate.
    // open: that the hash and the size are those of a file, which no contract can know.
    pub fn new(name: Text, hash_sha256: Text, size: u64, required: bool) -> Package
        requires { specs.IsPackage hash_sha256 size }
        ensures { result ≡ record {
          name = name;
          hash_sha256 = hash_sha256;
          size = size;
          required = required;
        } }
    {
        Package {
            name,
            hash_sha256,
            size,
            required,
        }
    }

    /// Its name, relative to the release's codebase.
    pub fn name(&self) -> &str
        ensures { result.now ≡ self.now.name }
    {
        self.name.as_str()
    }

    /// The SHA-256 of its bytes, as 64 lower case hexadecimal digits.
    pub fn hash_sha256(&self) -> &str
        ensures { result.now ≡ self.now.hash_sha256 }
    {
        self.hash_sha256.as_str()
    }

    /// Its length in bytes, below 2^53.
    pub fn size(&self) -> u64
        ensures { result ≡ self.now.size }
    {
        self.size
    }

    /// Whether a client must fetch it.
    pub fn required(&self) -> bool
        ensures { result ≡ self.now.required }
    {
        self.required
    }
}

fn are_hex_digits(digits: &[u8]) -> bool
    ensures { result ≡ list_all specs.is_hex_digit digits.now }
{
    digits.iter().all(|digit| is_hex_digit(*digit))
}

fn is_hex_digit(digit: u8) -> bool
    ensures { result ≡ specs.is_hex_digit digit }
{
    digit.is_ascii_digit() || (b'a' <= digit && digit <= b'f')
}
