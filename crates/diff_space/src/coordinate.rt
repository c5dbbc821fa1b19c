//! Coordinates: the numbers of machines and states that tests are about.

use attrs::{Attribute, Flag};
use cells::CellArray;

/// What a test is about: a number that a machine has in a state.
#[derive(Drop)]
pub enum Coordinate {
    /// The version, as one number below 2^128.
    Version,
    /// The day of the request.
    Today,
    /// The day of the installation, 4294967295 if it isn't known.
    Installed,
    /// The bucket, or the bucket under a salt; with a modulus, its remainder.
    Bucket {
        salt: Option<u64>,
        modulus: Option<u32>,
    },
    /// 1 if the flag is set, and otherwise 0.
    Flag(Flag),
    /// The index of the attribute's text among the named texts, or their count for any other text.
    Text(Attribute),
    /// How many takes of one run a cell grants. The array is as it is declared, with base 0.
    Takes {
        array: CellArray,
        index: u16,
    },
}
