//! Sends one request over and over to one worker whose reader and writer are memory.

ghost use Rattle.std.specs.Prelude.{◌≡◌, ◌+◌, IfOk};
ghost use Rattle.bench_answer.specs.Answered.{IsSuccess, IsReplyTally, IsTallyFromZeros, moment};

use answering::{AnswerBuffers, NoObserver, Turn, answer_in};
use anyhow::{Context, Error, Result};
use attrs::fnv1a;
use cells::{CellSteps, PlainCells};
use cover::Uncovered;
use hot_swap::{Publisher, Watcher};
use http_front::Counted;
use ruleset::Ruleset;
use std::alloc::Global;
use std::sync::{Arc, Wait};

/// 2026-03-02 01:00:00 UTC, which is day 7000 and second 3600 of Omaha's count.
const MOMENT: i64 = 1772413200;

/// Totals of replies: their bytes, and the hash of the last.
#[derive(Clone, Copy)]
pub(crate) struct ReplyTally {
    pub(crate) bytes: u64,
    pub(crate) reply: u64,
}

/// Makes one reply with reused buffers, and writes it over an earlier reply.
fn answer_once<C: CellSteps>(
    turn: &Turn<'_, C>,
    buffers: &mut AnswerBuffers,
    input: &[u8],
    mut written: Vec<u8>,
    pass: &mut C::Pass,
    watcher: &mut Watcher,
) -> Result<Vec<u8>>
    requires belongs { C.belongs turn.now.cells.now pass.old }
    requires moment { turn.now.moment.now ≡ moment }
    ensures belongs { C.belongs turn.now.cells.now pass.new }
    ensures replied { IfOk result (λ reply.
        IsSuccess C.grew input.now watcher.new pass.old pass.new reply.items) }
{
    written.clear();
    let mut reader = Counted::new(input);
    let mut writer = Counted::new(written);
    let sent = answer_in(
        turn,
        &Uncovered,
        buffers,
        &mut reader,
        &mut writer,
        pass,
        watcher,
        &mut NoObserver,
    )?;
    if sent.status != 200 {
        return Err(Error::msg("the request is refused"));
    }
    Ok(writer.into_inner())
}

/// The sum, if it fits.
fn sum(bytes: u64, more: usize) -> Result<u64>
    ensures { IfOk result (λ n. n ≡ bytes + more) }
{
    bytes.checked_add(more as u64).context("too many bytes")
}

/// Makes `times` replies to the request, under the ruleset that the watcher reads, by runs on the
/// cells.
// open: whether an allocation fails; how many takes several workers make at once, which the gate
// compares.
pub(crate) fn answer_times<C: CellSteps>(
    alloc: Global,
    cells: &C,
    pass: &mut C::Pass,
    watcher: &mut Watcher,
    input: &[u8],
    times: u32,
) -> Result<ReplyTally>
    requires { C.belongs cells.now pass.old }
    ensures { IfOk result (IsReplyTally C.grew input.now times pass.old pass.new) }
{
    let turn = Turn {
        alloc,
        cells,
        moment: &MOMENT,
    };
    let mut buffers = AnswerBuffers::new(alloc);
    let mut reply = Vec::new(alloc);
    let mut bytes = 0u64;
    for n in 0..times {
        reply = answer_once(&turn, &mut buffers, input, reply, pass, watcher)?;
        bytes = sum(bytes, reply.len())?;
    }
    Ok(ReplyTally {
        bytes,
        reply: fnv1a(&reply),
    })
}

/// Makes `times` replies to the request on new cells.
fn answer_alone(
    alloc: Global,
    watcher: &mut Watcher,
    input: &[u8],
    times: u32,
) -> Result<ReplyTally>
    ensures { IfOk result (IsTallyFromZeros input.now times) }
{
    let (cells, mut pass) = PlainCells::new(alloc)?;
    answer_times(alloc, &cells, &mut pass, watcher, input, times)
}

/// Makes `times` replies to the request under one ruleset.
// open: whether an allocation fails.
pub(crate) fn answer_under<H: Wait>(
    rt: &H,
    alloc: Global,
    rules: Arc<Ruleset>,
    input: &[u8],
    times: u32,
) -> Result<ReplyTally>
    ensures { IfOk result (IsTallyFromZeros input.now times) }
{
    let mut publisher = Publisher::new(rt, alloc, rules, 1)?;
    let tally = match publisher.watcher() {
        Ok(mut watcher) => answer_alone(alloc, &mut watcher, input, times),
        Err(fault) => Err(Error::from(fault)),
    };
    publisher.close(rt);
    tally
}
