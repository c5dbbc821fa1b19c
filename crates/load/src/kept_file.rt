//! What is kept of an app's file: all its bytes, if a program or a rule may have that many;
//! otherwise only the first of them; nothing if it can't be read.

ghost use Rattle.std.specs.Prelude.{◌≡◌, ◌^◌, ◌-◌, ◌<◌, IfOk, option_copied};
ghost use Rattle.load.specs.Kept.{CountsKept, IsKeptFrom};
ghost use Rattle.load.specs.Kept as specs;

use crate::files::Files;
use bounded_files::{KeptBytes, ResourceFault};
use manifest::ProgramSource;
use std::alloc::AllocError;

const MOST_PROGRAM: u32 = flow_check::MOST_PROGRAM as u32;

const MOST_RULE: u32 = rule_lang::MOST_RULE as u32;

/// Reads the file of an app; None if it can't be read.
pub(crate) fn collect_file<F: Files>(
    files: &mut F,
    source: &ProgramSource,
) -> Result<Option<KeptBytes>, AllocError>
    requires { F.failed files.old < 2 ^ 64 - 1 }
    ensures known { F.known files.new ≡ F.known files.old }
    ensures sources { IfOk result (IsKeptFrom (F.known files.old) source.now) }
    ensures count { CountsKept (F.failed files.old) (F.failed files.new) result }
{
    match files.keep(source.file(), most_of(source)) {
        Ok(kept) => Ok(Some(kept)),
        Err(ResourceFault::File) => Ok(None),
        Err(ResourceFault::Memory) => Err(AllocError),
    }
}

fn most_of(source: &ProgramSource) -> u32
    ensures { result ≡ specs.most_of source.now }
{
    match source {
        ProgramSource::Program(_) => MOST_PROGRAM,
        ProgramSource::Rule(_) => MOST_RULE,
    }
}

/// How many bytes a file has if it is longer than it may be; otherwise 0.
pub(crate) fn long_count(kept: &Option<KeptBytes>) -> u128
    ensures count { result ≡ specs.long_count kept.now }
    ensures within { result < 2 ^ 64 }
{
    match kept {
        None => 0,
        Some(KeptBytes::Whole(_)) => 0,
        Some(KeptBytes::Longer { count, .. }) => *count as u128,
    }
}

/// All bytes of a file, if they are kept.
pub fn whole_file(kept: &Option<KeptBytes>) -> Option<&[u8]>
    ensures { option_copied result ≡ specs.whole_file kept.now }
{
    match kept {
        None => None,
        Some(KeptBytes::Whole(bytes)) => Some(bytes.as_slice()),
        Some(KeptBytes::Longer { .. }) => None,
    }
}
