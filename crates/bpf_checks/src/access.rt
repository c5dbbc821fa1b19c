//! The memory that an instruction accesses: how, and at which address.

ghost use Rattle.std.specs.Prelude.{◌≡◌, ◌≤◌};
ghost use Rattle.bpf_checks.specs.Reads as reads;

use bpf_insn::{AtomicSize, LoadKind, Reg, Size};
use bpf_semantics::{atomic_count, byte_count, load_count};

/// How memory is accessed.
#[derive(Clone, Copy, PartialEq, Eq)]
pub enum Use {
    /// A zero-extending load.
    Loads,
    /// A sign-extending load.
    Extends,
    /// A store.
    Stores,
    /// An atomic operation.
    Exchanges,
}

/// An access of `count` bytes, from the address in the register `base` plus the offset.
#[derive(Clone, Copy)]
pub struct Access {
    pub how: Use,
    pub base: Reg,
    pub offset: i16,
    pub count: u16,
}

fn load_use(kind: LoadKind) -> Use
    ensures { result ≡ reads.load_use kind }
{
    match kind {
        LoadKind::SignedByte | LoadKind::SignedHalf | LoadKind::SignedWord => Use::Extends,
        _ => Use::Loads,
    }
}

impl Access {
    pub fn load(kind: LoadKind, src: Reg, offset: i16) -> Access
        ensures access { result ≡ reads.load_access kind src offset }
        ensures most { result.count ≤ 8 }
    {
        Access {
            how: load_use(kind),
            base: src,
            offset,
            count: load_count(kind),
        }
    }

    pub fn store(size: Size, dst: Reg, offset: i16) -> Access
        ensures access { result ≡ reads.store_access size dst offset }
        ensures most { result.count ≤ 8 }
    {
        Access {
            how: Use::Stores,
            base: dst,
            offset,
            count: byte_count(size),
        }
    }

    pub fn atomic(size: AtomicSize, dst: Reg, offset: i16) -> Access
        ensures access { result ≡ reads.atomic_access size dst offset }
        ensures most { result.count ≤ 8 }
    {
        Access {
            how: Use::Exchanges,
            base: dst,
            offset,
            count: atomic_count(size),
        }
    }
}
