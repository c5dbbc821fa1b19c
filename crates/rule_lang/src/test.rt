//! The tests of which conditions are made: queries about an app and its counters.

use crate::literal::Literal;
use attrs::{Attribute, Flag};
use cells::ArrayName;

/// How two numbers, or two versions, compare.
#[derive(Clone, Copy, PartialEq, Eq)]
pub enum Comparison {
    Lt,
    Le,
    Eq,
    Ne,
    Ge,
    Gt,
}

/// One test of an app. Days are counted from 2007-01-01 UTC.
#[derive(Drop)]
pub enum Test {
    /// The app's version against four numbers, compared in order.
    Version {
        comparison: Comparison,
        version: [u32; 4],
    },
    /// The app's bucket, 0 to 9999, or its bucket under a salt, against a number. With a modulus,
    /// which is at least 1 in a text, the remainder is compared.
    Bucket {
        salt: Option<u64>,
        modulus: Option<u32>,
        comparison: Comparison,
        number: u32,
    },
    /// The day of the request against a number.
    Today {
        comparison: Comparison,
        number: u32,
    },
    /// The day of installation, 4294967295 if unknown, against a number.
    Installed {
        comparison: Comparison,
        number: u32,
    },
    /// Whether this flag is set.
    Flag(Flag),
    /// Whether this attribute equals the text.
    Attr {
        attribute: Attribute,
        text: Literal,
    },
    /// Adds 1 to a cell of an array with a quota, and holds if the cell was below the quota.
    Take {
        array: ArrayName,
        index: u16,
    },
}
