//! The lines of a script, played in order, each by a call of `play`.

ghost use Rattle.std.specs.Prelude.{◌≡◌, IfOk, replicate};
ghost use Rattle.replay.specs.Played.{AreRepliesFrom, IsLineReplied, IsReplied};

use crate::reply::Reply;
use event_script::EventLine;
use std::alloc::{AllocError, Global};
use std::slice;
use world::{Event, World, batches_compose, play};

/// Plays the lines with their events, one for each line, and returns the replies.
pub(crate) fn play_lines(
    alloc: Global,
    world: &mut World,
    lines: &[EventLine],
    events: &[Event],
) -> Result<Vec<Reply>, AllocError>
    ensures { IfOk result (λ replies.
        AreRepliesFrom world.old lines.now events.now replies.items) }
{
    batches_compose();
    let mut replies = Vec::with_capacity(alloc, lines.len())?;
    let mut left = lines;
    let mut events = events;
    while let [requested, others @ ..] = left {
        let [event, behind @ ..] = events else {
            return Err(AllocError);
        };
        let reply = play_line(alloc, world, requested, event)?;
        replies.push(reply)?;
        left = others;
        events = behind;
    }
    // There is one event for each line; with more of either the result is an error.
    if let [_, ..] = events {
        return Err(AllocError);
    }
    Ok(replies)
}

fn play_line(
    alloc: Global,
    world: &mut World,
    requested: &EventLine,
    event: &Event,
) -> Result<Reply, AllocError>
    ensures { IfOk result (λ reply.
        IsLineReplied world.old requested.now event.now reply world.new) }
{
    match requested {
        EventLine::Step {
            worker,
            count: Some(count),
        } => {
            let steps = steps_of(alloc, *worker as usize, *count)?;
            reply_to(alloc, world, true, &steps)
        }
        _ => reply_to(alloc, world, false, slice::from_ref(event)),
    }
}

// `count` Steps of a worker.
fn steps_of(alloc: Global, worker: usize, count: u32) -> Result<Vec<Event>, AllocError>
    ensures { IfOk result (λ steps. steps.items ≡ replicate count (Event.Step worker)) }
{
    let mut steps = Vec::with_capacity(alloc, count as usize)?;
    for _ in 0..count {
        steps.push(Event::Step { worker })?;
    }
    Ok(steps)
}

// The reply to these events, of a line with a count or without one.
fn reply_to(
    alloc: Global,
    world: &mut World,
    counted: bool,
    events: &[Event],
) -> Result<Reply, AllocError>
    ensures { IfOk result (λ reply. IsReplied world.old counted events.now reply world.new) }
{
    let Ok(answers) = play(alloc, world, events) else {
        return Err(AllocError);
    };
    Ok(Reply::to(counted, &answers))
}
