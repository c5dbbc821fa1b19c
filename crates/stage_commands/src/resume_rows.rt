//! What changes if an app is resumed: from what is in place, and from before its halt.

ghost use Rattle.std.specs.Prelude.{IfSome, OnOk};
ghost use Rattle.load.specs.Opened.{IsCollected};
ghost use Rattle.stage_commands.specs.Compared.{IsAcceptedWith};

use crate::comparison::push_comparison;
use crate::next_rows::compare_with;
use crate::restored::NOT_COMPARED;
use crate::served_rows::judged_with_files;
use bounded_files::Disk;
use diff_manifests::OpenedBoth;
use load::CollectedManifest;
use stage_records::{ReplacedFile, StagingStep};
use stage_rules::last_halt;
use stage_servers::{Lines, StageCall, Stop, file_named, replaced_file};
use std::alloc::{AllocError, Global};
use std::net::{Net, TcpStream};
use std::slice;
use std::time::Clock;

// A file with these bytes.
fn with_bytes(alloc: Global, name: &str, bytes: &[u8]) -> Result<ReplacedFile, AllocError> {
    replaced_file(alloc, name, None, bytes)
}

// Prints what changes from before the halt, if the rule then has another number.
#[tactic(auto, using(crate::proofs::Opening::both_kept))]
fn compare_before<R, D>(
    call: &StageCall<'_, R, D>,
    was: &[u8],
    file: &ReplacedFile,
    lines: &mut Lines,
) -> Result<(), Stop>
where
    R: AllocGlobal + Clock + Net<Stream = TcpStream>,
    D: Disk,
{
    let Ok(before) = with_bytes(call.rt.alloc(), file.name.as_str(), was) else {
        return Err(Stop::Memory);
    };
    let old = judged_with_files(call, slice::from_ref(&before));
    drop(before);
    let Some(old) = old else {
        lines.stderr.push(NOT_COMPARED);
        return Ok(());
    };
    let Some(new) = judged_with_files(call, slice::from_ref(file)) else {
        drop(old);
        lines.stderr.push(NOT_COMPARED);
        return Ok(());
    };
    lines.text.push("from before the halt:\n");
    let both = OpenedBoth { old, new };
    let loses = push_comparison(call, &both, lines);
    drop(both);
    match loses {
        Ok(_) => Ok(()),
        Err(stop) => Err(stop),
    }
}

/// Prints what changes from what is in place, and from before the halt.
pub(crate) fn compare_resumed<R, D>(
    call: &StageCall<'_, R, D>,
    collected: CollectedManifest,
    was: Option<&[u8]>,
    file: &Option<ReplacedFile>,
    lines: &mut Lines,
) -> Result<(), Stop>
where
    R: AllocGlobal + Clock + Net<Stream = TcpStream>,
    D: Disk,
    requires { IsCollected (D.known call.now.disk.now) call.now.manifest.now collected }
    ensures { OnOk result (IfSome file.now
        (IsAcceptedWith (D.known call.now.disk.now) call.now.manifest.now)) }
{
    if let Err(stop) = compare_with(call, collected, file, lines) {
        return Err(stop);
    }
    match (was, file) {
        (Some(was), Some(file)) => match compare_before(call, was, file, lines) {
            Ok(()) => Ok(()),
            Err(stop) => Err(stop),
        },
        _ => Ok(()),
    }
}

/// The bytes before the halt of a file, if they are to be compared.
pub(crate) fn compared_bytes<'a>(
    steps: &'a [StagingStep],
    appid: &str,
    file: &Option<ReplacedFile>,
    buckets: Option<u32>,
) -> Option<&'a [u8]> {
    let _number = buckets?;
    let Some(file) = file else {
        return None;
    };
    let step = last_halt(steps, appid)?;
    file_named(&step.files, file.name.as_str())?
        .before
        .as_deref()
}
