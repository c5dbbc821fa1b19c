//! A publisher and its watchers at work: reads of the published ruleset, and installs.

use crate::rules::takers;
use anyhow::Result;
use hot_swap::{Publisher, Watcher};
use ruleset::Ruleset;
use std::alloc::{AllocError, Global};
use std::sync::atomic::{AtomicBool, Ordering};
use std::sync::{Arc, Wait};
use std::thread::{Threads, join, map_vec};

/// How often a watcher reads at most during installs.
const PATIENCE: u32 = 1_000_000_000;

/// The most watchers that a publisher has.
const MOST: usize = 65;

/// What is done with `looking` watchers that read, each in a thread of its own, and `still`
/// watchers that don't: the first read, and meanwhile rulesets may be installed.
#[derive(Clone, Copy)]
pub(crate) struct Watching {
    pub(crate) is_installing: bool,
    pub(crate) looking: usize,
    pub(crate) still: usize,
}

/// Does this work `times` times. Returns how many reads got a ruleset, and the last generation.
pub(crate) fn watched<H: Threads + Wait + Sync>(
    rt: &H,
    alloc: Global,
    watching: Watching,
    times: u32,
) -> Result<String> {
    let mut publisher = Publisher::new(rt, alloc, takers(alloc, 0)?, MOST)?;
    let received = done(rt, alloc, &mut publisher, watching, times);
    let generation = publisher.generation();
    publisher.close(rt);
    Ok(format!(in alloc; "seen={} generation={generation}", received?)?)
}

// Reads `times` times, or until `stop` is set, and returns the number of reads that got a ruleset.
fn look(mut watcher: Watcher, times: u32, stop: &AtomicBool) -> u64 {
    let mut received = 0u64;
    for _ in 0..times {
        if watcher.current().is_ok() {
            received = received.saturating_add(1);
        }
        if stop.load(Ordering::Relaxed) {
            break;
        }
    }
    received
}

// As above for all watchers, each in a thread of its own.
fn look_all<H: Threads + Sync>(
    rt: &H,
    watchers: Vec<Watcher>,
    times: u32,
    stop: &AtomicBool,
) -> Result<u64, AllocError> {
    let received = map_vec(
        rt,
        watchers,
        &|watcher: Watcher| { look(watcher, times, stop) },
    )?;
    let mut sum = 0u64;
    for count in &received {
        sum = sum.saturating_add(*count);
    }
    Ok(sum)
}

// Installs a ruleset `times` times.
fn install_all<H: Wait>(
    rt: &H,
    publisher: &mut Publisher,
    rules: &Arc<Ruleset>,
    times: u32,
) -> Result<()> {
    for _ in 0..times {
        publisher.install(rt, Arc::try_clone(rules)?)?;
    }
    Ok(())
}

// `count` watchers.
fn watchers(alloc: Global, publisher: &mut Publisher, count: usize) -> Result<Vec<Watcher>> {
    let mut watchers = Vec::new(alloc);
    for _ in 0..count {
        watchers.push(publisher.watcher()?)?;
    }
    Ok(watchers)
}

/// Does this work `times` times with watchers of the publisher, and returns the number of reads
/// that got a ruleset.
fn done<H: Threads + Wait + Sync>(
    rt: &H,
    alloc: Global,
    publisher: &mut Publisher,
    watching: Watching,
    times: u32,
) -> Result<u64> {
    let rules = takers(alloc, 0)?;
    let looking = watchers(alloc, publisher, watching.looking)?;
    let _still = watchers(alloc, publisher, watching.still)?;
    let stop = AtomicBool::new(false);
    if !watching.is_installing {
        return Ok(look_all(rt, looking, times, &stop)?);
    }
    let (received, installed) = join(
        rt,
        || look_all(rt, looking, PATIENCE, &stop),
        || {
            let installed = install_all(rt, publisher, &rules, times);
            stop.store(true, Ordering::Relaxed);
            installed
        },
    );
    installed?;
    Ok(received?)
}
