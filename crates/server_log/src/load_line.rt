//! The log lines about what is served: that the server is ready, and each load.

ghost use Rattle.std.specs.Prelude.{◌≡◌, IfOk, length, option_copied, option_map, string_bytes};
ghost use Rattle.hex.specs.Hex.{encode_lower};
ghost use Rattle.server_log.specs.Loads.{IsCauseOf, IsExcerptOf, IsLineOfReply, IsLoadLine};
ghost use Rattle.server_log.specs.Loads.{DescribesInstalledLoad, DescribesReplyRefusal};
ghost use Rattle.server_log.specs.Loads.{DescribesRefusedLoad};

use crate::log_queue::LogQueue;
use access_log::{Excerpt, LineHeader, Load, LogEvent, log_line};
use hex::encode;
use hot_swap::Generation;
use operator::{Control, Loader, OperatorRefusal, OperatorReply};
use std::alloc::{AllocError, Global};
use std::sync::Wait;
use std::time::Clock;

/// Queues the line that the server is ready and serves this generation, if there is a queue. The
/// line is lost if an allocation fails.
// open: all but the line of an event: tests.
pub fn note_serving<H>(rt: &H, log: Option<&LogQueue>, generation: Generation)
where
    H: Wait + AllocGlobal + Clock,
{
    if let Some(queue) = log {
        queue.note(rt, &LogEvent::Serving(generation));
    }
}

/// The line of a request for a load: with the digest of what was loaded and the number of halted
/// apps, or with the refusal and the loader's cause; `None` if the reply isn't that to a load.
// open: whether an allocation fails.
pub(crate) fn load_line<L: Loader>(
    alloc: Global,
    header: &LineHeader,
    path: &str,
    loader: &L,
    control: &Control,
    reply: &OperatorReply<L::Fault>,
) -> Result<Option<Vec<u8>>, AllocError>
    ensures { IfOk result (λ line. IsLineOfReply L.has_cause L.Fault.output header.now path.now
        control.now.last.digest (length control.now.halted) reply.now
        (option_map (λ l. l.items) line)) }
{
    match reply {
        OperatorReply::Loaded(generation) => {
            let line = installed_line(alloc, header, path, *generation, control)?;
            Ok(Some(line))
        }
        OperatorReply::Refused(refusal) => {
            let line = refused_line(alloc, header, path, loader, refusal)?;
            Ok(Some(line))
        }
        _ => Ok(None),
    }
}

fn installed_line(
    alloc: Global,
    header: &LineHeader,
    path: &str,
    generation: Generation,
    control: &Control,
) -> Result<Vec<u8>, AllocError>
    ensures { IfOk result (λ line. IsLoadLine header.now (DescribesInstalledLoad path.now generation
        (encode_lower control.now.last.digest) (length control.now.halted)) line.items) }
{
    let digest = encode(alloc, control.last().digest)?;
    let load = installed(path, generation, &digest, halted_count(control));
    log_line(alloc, header, &LogEvent::Load(load))
}

// How many apps are halted.
fn halted_count(control: &Control) -> u64
    ensures { result ≡ length control.now.halted }
{
    control.halted().len() as u64
}

fn refused_line<L: Loader>(
    alloc: Global,
    header: &LineHeader,
    path: &str,
    loader: &L,
    refusal: &OperatorRefusal<L::Fault>,
) -> Result<Vec<u8>, AllocError>
    ensures { IfOk result (λ line. IsLoadLine header.now
        (DescribesReplyRefusal L.has_cause L.Fault.output path.now refusal.now) line.items) }
{
    let text = refusal.to_string(alloc)?;
    let load = refused(path, &text, cause_of(loader, refusal));
    log_line(alloc, header, &LogEvent::Load(load))
}

// The loader's cause of a refused load.
fn cause_of<'x, L: Loader>(loader: &L, refusal: &'x OperatorRefusal<L::Fault>) -> Option<&'x str>
    ensures { IsCauseOf L.has_cause refusal.now (option_copied result) }
{
    match refusal {
        OperatorRefusal::Load(fault) => loader.cause(fault),
        _ => None,
    }
}

/// A digest in lower-case hexadecimal digits.
// open: whether an allocation fails.
pub fn digest_text(alloc: Global, digest: Option<[u8; 32]>) -> Result<Option<String>, AllocError>
    ensures { IfOk result
        (λ text. option_map string_bytes text ≡ option_map encode_lower digest) }
{
    match digest {
        Some(digest) => Ok(Some(encode(alloc, digest)?)),
        None => Ok(None),
    }
}

// The event of an installed load.
fn installed<'x>(path: &'x str, generation: Generation, digest: &'x str, halted: u64) -> Load<'x>
    ensures { DescribesInstalledLoad path.now generation digest.now halted result }
{
    Load {
        path: Excerpt::of(path),
        generation,
        digest: Some(digest),
        halted,
        refusal: None,
        cause: None,
    }
}

// The event of a refused load.
fn refused<'x>(path: &'x str, refusal: &'x str, cause: Option<&'x str>) -> Load<'x>
    ensures { DescribesRefusedLoad path.now refusal.now (option_copied cause.entry) result }
{
    Load {
        path: Excerpt::of(path),
        generation: 0,
        digest: None,
        halted: 0,
        refusal: Some(refusal),
        cause: excerpt_of(cause),
    }
}

pub(crate) fn excerpt_of<'x>(cause: Option<&'x str>) -> Option<Excerpt<'x>>
    ensures { IsExcerptOf (option_copied cause.entry) result }
{
    match cause {
        Some(cause) => Some(Excerpt::of(cause)),
        None => None,
    }
}
