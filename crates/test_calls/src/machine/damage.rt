//! Three programs: a lookup in an array of four counters, atomic operations on a counter of 32
//! bits, and a take from a quota. Each prefix of their bytes and each change of one byte is
//! verified. What an accepted program does is proved.

use crate::machine::given::shape_over;
use acceptance::accept;
use bpf_text::assemble;
use cells::Shape;
use std::alloc::Global;
use std::test::Fail;

/// An array, a number of releases, a program that uses them, and how many of its prefixes and
/// changes are accepted: of n bytes there are n prefixes and 255 n changes.
const PROGRAMS: &[(&str, u8, &str, u32)] = &[
    (
        "a:64:4",
        2,
        "ldmap r1, 0\nmov r2, 4\ncall 1\njeq r0, 0, +2\nmov r0, 1\nexit\nmov r0, 2\nexit",
        1177,
    ),
    (
        "b:32:1",
        1,
        "ldcell r6, 0, 0\nmov32 r2, -1\nstxw [r6+0], r2\nmov r2, 1\nfaddw [r6+0], r2\n\
            mov r0, 0\nmov r3, 5\ncmpxchgw [r6+0], r3\nand r0, 1\nexit",
        4162,
    ),
    (
        "q:64:1:2",
        1,
        "ldcell r6, 0, 0\nmov r2, 1\nfadddw [r6+0], r2\njge r2, 2, +2\nmov r0, 1\nexit\n\
            mov r0, 0\nexit",
        1142,
    ),
];

/// One if a program is accepted.
fn accepted(alloc: Global, bytes: &[u8], shape: &Shape) -> u32 {
    if accept(alloc, bytes, shape).is_ok() {
        1
    } else {
        0
    }
}

/// How many prefixes of a program are accepted.
fn prefixes(alloc: Global, bytes: &[u8], shape: &Shape) -> u32 {
    let mut count = 0u32;
    for length in 0..bytes.len() {
        count = count.wrapping_add(accepted(alloc, &bytes[..length], shape));
    }
    count
}

/// How many changes of one byte to another value are accepted.
fn changes(alloc: Global, mut bytes: Vec<u8>, shape: &Shape) -> u32 {
    let mut count = 0u32;
    for place in 0..bytes.len() {
        let whole = bytes[place];
        for value in 0..=255 {
            if value != whole {
                bytes[place] = value;
                count = count.wrapping_add(accepted(alloc, &bytes, shape));
            }
        }
        bytes[place] = whole;
    }
    count
}

/// How many of all these are accepted.
fn count_of(alloc: Global, array: &str, releases: u8, text: &str) -> Result<u32, Fail> {
    let shape = shape_over(alloc, releases, array)?;
    let bytes = assemble(alloc, text)?;
    let count = prefixes(alloc, &bytes, &shape);
    Ok(count.wrapping_add(changes(alloc, bytes, &shape)))
}

#[test]
fn damaged_programs(rt: HostRuntime) -> Result<(), Fail> {
    for (array, releases, text, count) in PROGRAMS {
        let found = count_of(rt.alloc(), *array, *releases, *text)?;
        assert!(rt; found == *count, "{array}: {found}");
    }
    Ok(())
}
