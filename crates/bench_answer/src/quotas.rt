//! Workers that take from one quota at once, each in a thread of its own: only the takes, or whole
//! replies to a request in which each app takes once. The counters are under a lock, or are shared
//! without one.

ghost use Rattle.std.specs.Prelude.{All, IfOk};

use crate::answers::answer_times;
use crate::locked_cells::LockedCells;
use crate::requests::of_apps;
use crate::rules::{QUOTA, takers};
use anyhow::{Context, Error, Result};
use cells::{CellNo, CellOp, CellSteps};
use hot_swap::{Publisher, Watcher};
use shared_cells::SharedCells;
use std::alloc::Global;
use std::sync::Wait;
use std::thread::{Threads, map_vec};

/// The work of all: how many takes had a place, or the bytes of all replies; and the counter after
/// it.
#[derive(Clone, Copy)]
struct Total {
    sum: u64,
    counter: u64,
}

/// What `workers` workers do at once: each replies to requests of `apps` apps that take, or only
/// takes, if there are none. The counters are under a lock or shared without one.
#[derive(Clone, Copy)]
pub(crate) struct Work {
    pub(crate) apps: u16,
    pub(crate) is_locked: bool,
    pub(crate) workers: usize,
}

/// Has each of 1 to 64 workers do its task `times` times, and returns the line to print.
pub(crate) fn run_task<H: Threads + Wait + Sync>(
    rt: &H,
    alloc: Global,
    work: Work,
    times: u32,
) -> Result<String> {
    let request = of_apps(alloc, work.apps)?;
    let total = published(rt, alloc, work, &request, times);
    drop(request);
    let Total { sum, counter } = total?;
    let name = if work.apps == 0 { "places" } else { "bytes" };
    Ok(format!(in alloc; "times={times} {name}={sum} counter={counter}")?)
}

/// Publishes a ruleset of apps that take, under which the workers do their task.
fn published<H: Threads + Wait + Sync>(
    rt: &H,
    alloc: Global,
    work: Work,
    request: &[u8],
    times: u32,
) -> Result<Total> {
    let workers = work.workers.clamp(1, 64);
    let request = if work.apps == 0 { None } else { Some(request) };
    let mut publisher = Publisher::new(rt, alloc, takers(alloc, work.apps)?, workers)?;
    let total = if work.is_locked {
        over_locked(rt, alloc, &mut publisher, workers, request, times)
    } else {
        over_shared(rt, alloc, &mut publisher, workers, request, times)
    };
    publisher.close(rt);
    total
}

/// The work over counters under a lock.
// open: which reply an operation gets, and that counters are 0 at first: no contract can name what
// is under a lock that other threads take.
fn over_locked<H: Threads + Wait + Sync>(
    rt: &H,
    alloc: Global,
    publisher: &mut Publisher,
    workers: usize,
    request: Option<&[u8]>,
    times: u32,
) -> Result<Total> {
    let cells = LockedCells::new(alloc, rt)?;
    let passes = Vec::from_elem(alloc, cells.pass(), workers)?;
    let workers = with_watchers(alloc, &cells, passes, publisher)?;
    at_once(rt, alloc, &cells, cells.pass(), workers, request, times)
}

fn over_shared<H: Threads + Sync>(
    rt: &H,
    alloc: Global,
    publisher: &mut Publisher,
    workers: usize,
    request: Option<&[u8]>,
    times: u32,
) -> Result<Total> {
    let (cells, mut passes) = SharedCells::new(alloc, workers.saturating_add(1).clamp(1, 65))?;
    let Some(own) = passes.pop() else {
        return Err(Error::msg("no pass"));
    };
    let workers = with_watchers(alloc, &cells, passes, publisher)?;
    at_once(rt, alloc, &cells, own, workers, request, times)
}

/// A worker of each pass, which watches the publisher.
fn with_watchers<C: CellSteps>(
    alloc: Global,
    cells: &C,
    mut passes: Vec<C::Pass>,
    publisher: &mut Publisher,
) -> Result<Vec<(C::Pass, Watcher)>>
where
    C::Pass: Drop,
    requires { All (C.belongs cells.now) passes.items }
    ensures { IfOk result (λ workers. All (λ w. C.belongs cells.now w.0) workers.items) }
{
    let mut workers = Vec::new(alloc);
    while let Some(pass) = passes.pop() {
        workers.push((pass, publisher.watcher()?))?;
    }
    Ok(workers)
}

/// Has each worker do its task `times` times in a thread of its own, and then reads the counter.
fn at_once<H, C>(
    rt: &H,
    alloc: Global,
    cells: &C,
    mut own: C::Pass,
    workers: Vec<(C::Pass, Watcher)>,
    request: Option<&[u8]>,
    times: u32,
) -> Result<Total>
where
    H: Threads + Sync,
    C: CellSteps + Sync,
    C::Pass: Send + Drop,
    requires own { C.belongs cells.now own }
    requires workers { All (λ worker. C.belongs cells.now worker.0) workers.items }
{
    let sums = map_vec(
        rt,
        workers,
        &|worker| -> Option<u64>
            requires { C.belongs cells.now worker.0 }
        { done_by(alloc, cells, worker, request, times) },
    )?;
    let mut sum = 0u64;
    for one in &sums {
        sum = sum.saturating_add(one.context("a request is refused")?);
    }
    let counter = cells.act(&mut own, CellNo::new(0), CellOp::Load);
    Ok(Total { sum, counter })
}

/// The work of one worker, and its part of the sum; `None` if a reply's status isn't 200.
fn done_by<C: CellSteps>(
    alloc: Global,
    cells: &C,
    worker: (C::Pass, Watcher),
    request: Option<&[u8]>,
    times: u32,
) -> Option<u64>
where
    C::Pass: Drop,
    requires { C.belongs cells.now worker.0 }
{
    let (mut pass, mut watcher) = worker;
    let Some(request) = request else {
        return Some(take_times(cells, &mut pass, times));
    };
    match answer_times(alloc, cells, &mut pass, &mut watcher, request, times) {
        Ok(tally) => Some(tally.bytes),
        Err(_) => None,
    }
}

/// Takes `times` times, and returns how many of the takes had a place.
fn take_times<C: CellSteps>(cells: &C, pass: &mut C::Pass, times: u32) -> u64
    requires { C.belongs cells.now pass.old }
{
    let mut places = 0u64;
    for _ in 0..times {
        if cells.act(pass, CellNo::new(0), CellOp::Add(1)) < QUOTA {
            places = places.saturating_add(1);
        }
    }
    places
}
