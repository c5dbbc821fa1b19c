//! The benchmark's program. It builds programs of seven kinds, of up to 4096 slots, and prints
//! their bytes, verifies them or runs them. The counts and hashes that it prints are the same
//! everywhere. It reads no clock: `bench/run` times whole processes from outside.
#![tactic(auto)]

mod blocks;
mod judge;
mod pattern;
mod program;
mod runs;

use crate::judge::{verified, verify_times};
use crate::pattern::{Pattern, ProgramSize};
use crate::program::program;
use crate::runs::{RunTotals, apps, run_times};
use anyhow::{Context, Result, bail};
use attrs::fnv1a;
use std::alloc::Global;
use std::env;
use std::io::Write;
use std::sync::Arc;

const USAGE: &str = "usage: bench bytes|verify|run SLOTS TIMES PATTERN.., of straight straight32 \
    one-target diamonds full-stack loads stores";

/// What is done with a program: its bytes are printed, or it is verified or run a number of times.
#[derive(Clone, Copy)]
enum Work {
    Bytes,
    Verify,
    Run,
}

fn work_of(word: &str) -> Option<Work> {
    match word {
        "bytes" => Some(Work::Bytes),
        "verify" => Some(Work::Verify),
        "run" => Some(Work::Run),
        _ => None,
    }
}

/// Runs the program of the bytes `times` times.
fn run(alloc: Global, bytes: &[u8], times: u32) -> Result<RunTotals> {
    let program = Arc::new(alloc, verified(alloc, bytes)?)?;
    Ok(run_times(alloc, &program, &apps(alloc)?, times)?)
}

/// Verifies the program of the bytes, or runs it, `times` times. Runs have totals.
fn totals_of(alloc: Global, work: Work, bytes: &[u8], times: u32) -> Result<Option<RunTotals>> {
    match work {
        Work::Run => Ok(Some(run(alloc, bytes, times)?)),
        _ => {
            verify_times(alloc, bytes, times)?;
            Ok(None)
        }
    }
}

/// Does the work with the bytes of a program, and prints its line, or the bytes.
fn print<O: Write>(
    alloc: Global,
    work: Work,
    word: &str,
    bytes: &[u8],
    times: u32,
    out: &mut O,
) -> Result<()> {
    if let Work::Bytes = work {
        return Ok(out.write_all(bytes)?);
    }
    let totals = totals_of(alloc, work, bytes, times)?;
    let slots = bytes.len() / 8;
    let hash = fnv1a(bytes);
    write!(out, "{word} slots={slots} bytes={hash:016x} ")?;
    let printed = match totals {
        Some(
            RunTotals {
                instructions,
                choices,
            },
        ) => {
            writeln!(
                out,
                "runs={times} instructions={instructions} choices={choices:016x}"
            )
        }
        None => writeln!(out, "verifications={times}"),
    };
    Ok(printed?)
}

/// Does the work with the program of a pattern, which a word names.
fn do_work<O: Write>(
    alloc: Global,
    work: Work,
    size: ProgramSize,
    times: u32,
    word: &str,
    out: &mut O,
) -> Result<()> {
    let pattern = Pattern::named(word).context(USAGE)?;
    let bytes = program(alloc, pattern, size.blocks)?;
    print(alloc, work, word, &bytes, times, out)
}

/// Does what the words after the program's name request.
fn measure<O: Write>(alloc: Global, words: &[String], out: &mut O) -> Result<()> {
    let [_, work, slots, times, patterns @ ..] = words else {
        bail!("{USAGE}")
    };
    if patterns.is_empty() {
        bail!("{USAGE}")
    }
    let work = work_of(work.as_str()).context(USAGE)?;
    let size = ProgramSize::of(slots.as_str()).context(USAGE)?;
    let times: u32 = times.as_str().parse().ok().context(USAGE)?;
    for word in patterns {
        do_work(alloc, work, size, times, word.as_str(), out)?;
    }
    Ok(())
}

fn main(rt: HostRuntime) -> Result<()> {
    let words: Vec<String> = env::args(&rt)?.collect(rt.alloc())?;
    measure(rt.alloc(), words.as_slice(), &mut rt.stdout())
}
