//! Serves a request over memory, or takes from a quota, a given number of times, by one worker or
//! by several at once. Or reads a published ruleset, or installs others. It prints the results,
//! which are the same on every machine, except the number of reads during installs. It reads no
//! clock: `bench/answer`, `bench/quotas` and `bench/swap` time whole processes.
#![tactic(auto)]

mod answers;
mod locked_cells;
mod publishing;
mod quotas;
mod requests;
mod rules;

use crate::answers::{ReplyTally, answer_under};
use crate::publishing::{Watching, watched};
use crate::quotas::{Work, run_task};
use crate::requests::{WORKED, of_apps, post};
use anyhow::{Context, Error, Result};
use std::alloc::{AllocError, Global};
use std::env;
use std::sync::Wait;
use std::thread::Threads;

/// The most apps that a request may have.
const MAX_APPS: u16 = 256;

/// What a word can be.
const WORDS: &str = "worked, a number of apps, take|quota|quotas:locked|shared:WORKERS, \
    looks|installs:LOOKING:STILL";

/// What is done, as a word names it.
#[derive(Clone, Copy)]
enum Wanted {
    /// Serves a request of this number of apps, or the worked one.
    Answers(Option<u16>),
    Takes(Work),
    Watches(Watching),
}

/// `worked`, or a number of apps.
fn answers_of(word: &str) -> Option<Wanted> {
    if word == "worked" {
        return Some(Wanted::Answers(None));
    }
    let count: u16 = word.parse().ok()?;
    Some(Wanted::Answers(Some(count.min(MAX_APPS))))
}

/// Only takes (`take`), or requests of 1 or of 256 apps that take (`quota`, `quotas`), by counters
/// that are `locked` or `shared`.
fn takes_of(task: &str, sharing: &str, workers: usize) -> Option<Wanted> {
    let apps = match task {
        "take" => 0,
        "quota" => 1,
        "quotas" => MAX_APPS,
        _ => return None,
    };
    let is_locked = sharing == "locked";
    if !is_locked && sharing != "shared" {
        return None;
    }
    Some(Wanted::Takes(Work {
        apps,
        is_locked,
        workers,
    }))
}

/// What a word names, such as `worked`, `quotas:shared:4` or `installs:3:61`.
fn wanted_of(word: &str) -> Option<Wanted> {
    let Some((first, rest)) = word.split_once(':') else {
        return answers_of(word);
    };
    let (second, third) = rest.split_once(':')?;
    let third: usize = third.parse().ok()?;
    let is_installing = first == "installs";
    if !is_installing && first != "looks" {
        return takes_of(first, second, third);
    }
    let looking: usize = second.parse().ok()?;
    Some(Wanted::Watches(Watching {
        is_installing,
        looking,
        still: third,
    }))
}

/// The request of this number of apps, or the worked one.
fn request_of(alloc: Global, count: Option<u16>) -> Result<Vec<u8>, AllocError> {
    match count {
        Some(count) => of_apps(alloc, count),
        None => post(alloc, WORKED),
    }
}

/// Serves a request `times` times.
fn tally_of<H: Wait>(rt: &H, alloc: Global, count: Option<u16>, times: u32) -> Result<ReplyTally> {
    let input = request_of(alloc, count)?;
    let rules = match count {
        Some(_) => rules::many(alloc, MAX_APPS)?,
        None => rules::worked(alloc)?,
    };
    answer_under(rt, alloc, rules, &input, times)
}

/// As above. Returns the line to print.
fn answer_line<H: Wait>(rt: &H, alloc: Global, count: Option<u16>, times: u32) -> Result<String> {
    let ReplyTally { bytes, reply } = tally_of(rt, alloc, count, times)?;
    Ok(format!(in alloc; "answers={times} bytes={bytes} reply={reply}")?)
}

/// Does what a word names `times` times, and returns the line to print.
fn line_of<H: Threads + Wait + Sync>(
    rt: &H,
    alloc: Global,
    word: &str,
    times: u32,
) -> Result<String> {
    match wanted_of(word) {
        Some(Wanted::Answers(count)) => answer_line(rt, alloc, count, times),
        Some(Wanted::Takes(work)) => run_task(rt, alloc, work, times),
        Some(Wanted::Watches(watching)) => watched(rt, alloc, watching, times),
        None => Err(Error::msg(WORDS)),
    }
}

fn main(rt: HostRuntime) -> Result<()> {
    let words: Vec<String> = env::args(&rt)?.collect(rt.alloc())?;
    let mut words = words.iter().skip(1);
    let times = words.next().context("bench_answer TIMES WORK..")?;
    let times: u32 = times.parse().ok().context("a number of times")?;
    for word in words {
        let line = line_of(&rt, rt.alloc(), word.as_str(), times)?;
        println!(rt; "{word} {line}")?;
    }
    Ok(())
}
