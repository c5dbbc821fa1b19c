//! The log line of a halt of an app that the operator requested, or of its end.

ghost use Rattle.std.specs.Prelude.{IfOk, option_map};
ghost use Rattle.server_log.specs.Halts.{DescribesHalt, DescribesHaltRefusal, IsHaltLine};
ghost use Rattle.server_log.specs.Halts.{DescribesRefusedHalt, IsLineOfHalt};

use access_log::{Excerpt, Halt, LineHeader, LogEvent, log_line};
use hot_swap::Generation;
use operator::{OperatorRefusal, OperatorReply};
use std::alloc::{AllocError, Global};
use std::fmt::Display;

/// The app of a request, and whether its halt is to end.
#[derive(Clone, Copy)]
pub(crate) struct HaltRequest<'a> {
    pub appid: &'a str,
    pub is_resume: bool,
}

/// The line of a request to halt an app, or to resume it: with the generation that is then served,
/// or with the refusal; `None` if the reply isn't that to a halt.
// open: whether an allocation fails.
pub(crate) fn halt_line<F: Display>(
    alloc: Global,
    header: &LineHeader,
    request: HaltRequest<'_>,
    reply: &OperatorReply<F>,
) -> Result<Option<Vec<u8>>, AllocError>
    ensures { IfOk result (λ line. IsLineOfHalt F.output header.now request.entry reply.now
        (option_map (λ l. l.items) line)) }
{
    match reply {
        OperatorReply::Loaded(generation) => {
            let text = done_line(alloc, header, request, *generation)?;
            Ok(Some(text))
        }
        OperatorReply::Refused(refusal) => {
            let text = refused_line(alloc, header, request, refusal)?;
            Ok(Some(text))
        }
        _ => Ok(None),
    }
}

fn done_line(
    alloc: Global,
    header: &LineHeader,
    request: HaltRequest<'_>,
    generation: Generation,
) -> Result<Vec<u8>, AllocError>
    ensures { IfOk result
        (λ line. IsHaltLine header.now (DescribesHalt request.entry generation) line.items) }
{
    log_line(alloc, header, &LogEvent::Halt(done(request, generation)))
}

fn refused_line<F: Display>(
    alloc: Global,
    header: &LineHeader,
    request: HaltRequest<'_>,
    refusal: &OperatorRefusal<F>,
) -> Result<Vec<u8>, AllocError>
    ensures { IfOk result (λ line. IsHaltLine header.now
        (DescribesHaltRefusal F.output request.entry refusal.now) line.items) }
{
    let text = refusal.to_string(alloc)?;
    log_line(alloc, header, &LogEvent::Halt(refused(request, &text)))
}

// The event of a request that was done.
fn done<'x>(request: HaltRequest<'x>, generation: Generation) -> Halt<'x>
    ensures { DescribesHalt request.entry generation result }
{
    Halt {
        app: Excerpt::of(request.appid),
        is_resume: request.is_resume,
        generation,
        refusal: None,
    }
}

// The event of a refused request.
fn refused<'x>(request: HaltRequest<'x>, refusal: &'x str) -> Halt<'x>
    ensures { DescribesRefusedHalt request.entry refusal.now result }
{
    Halt {
        app: Excerpt::of(request.appid),
        is_resume: request.is_resume,
        generation: 0,
        refusal: Some(refusal),
    }
}
