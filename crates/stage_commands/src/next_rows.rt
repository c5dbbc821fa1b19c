//! For whom another file of an app changes what is served.

ghost use Rattle.std.specs.Prelude.{IfOk, IfSome, OnOk};
ghost use Rattle.load.specs.Opened.{IsCollected};
ghost use Rattle.stage_commands.specs.Compared.{AreAllJudged, IsAcceptedWith, IsJudgedWith};

use crate::comparison::compare;
use crate::judged::{judged, judged_at};
use crate::stop_texts::next_refused;
use crate::warned::push_warnings_of;
use bounded_files::Disk;
use load::{CollectedManifest, JudgedManifest};
use stage_records::ReplacedFile;
use stage_servers::{Lines, StageCall, Stop, sources_with};
use std::alloc::Global;
use std::net::{Net, TcpStream};
use std::slice;
use std::time::Clock;

// The manifest in place, with another file.
#[tactic(auto, using(crate::proofs::Accepted::judged_with))]
fn judged_with<D: Disk>(
    alloc: Global,
    disk: &D,
    manifest: &str,
    bytes: &[u8],
    file: &ReplacedFile,
) -> Result<JudgedManifest, Stop>
    ensures judged { IfOk result AreAllJudged }
    ensures accepted { IfOk result (λ judged. IsJudgedWith (D.known disk.now) manifest.now
        bytes.now file.now judged) }
{
    let replaced = slice::from_ref(file);
    let sources = match sources_with(alloc, disk, manifest, bytes, replaced, true) {
        Ok(sources) => sources,
        Err(fault) => return Err(next_refused(alloc, fault)),
    };
    match judged(alloc, bytes, sources) {
        Ok(opened) => Ok(opened),
        Err(fault) => Err(next_refused(alloc, fault)),
    }
}

// Prints what changes by another file, and what `check` warns of in it.
#[tactic(auto, using(crate::proofs::Accepted::accepted_with))]
fn compare_by<R, D>(
    call: &StageCall<'_, R, D>,
    collected: CollectedManifest,
    file: &ReplacedFile,
    lines: &mut Lines,
) -> Result<(), Stop>
where
    R: AllocGlobal + Clock + Net<Stream = TcpStream>,
    D: Disk,
    requires { IsCollected (D.known call.now.disk.now) call.now.manifest.now collected }
    ensures { OnOk result
        (IsAcceptedWith (D.known call.now.disk.now) call.now.manifest.now file.now) }
{
    let alloc = call.rt.alloc();
    let CollectedManifest { bytes, sources } = collected;
    let old = match judged_at(alloc, call.manifest, &bytes, sources) {
        Ok(old) => old,
        Err(stop) => {
            drop(bytes);
            return Err(stop);
        }
    };
    let next = judged_with(alloc, call.disk, call.manifest, &bytes, file);
    drop(bytes);
    match next {
        Ok(new) => {
            push_warnings_of(alloc, &new.apps, slice::from_ref(file), lines);
            match compare(call, old, new, lines) {
                Ok(()) => Ok(()),
                Err(stop) => Err(stop),
            }
        }
        Err(stop) => {
            drop(old);
            Err(stop)
        }
    }
}

/// Prints what changes by another file, and what `check` warns of in it, if there is one. A lost
/// row is a refusal, unless `--anyway` is given.
pub(crate) fn compare_with<R, D>(
    call: &StageCall<'_, R, D>,
    collected: CollectedManifest,
    file: &Option<ReplacedFile>,
    lines: &mut Lines,
) -> Result<(), Stop>
where
    R: AllocGlobal + Clock + Net<Stream = TcpStream>,
    D: Disk,
    requires { IsCollected (D.known call.now.disk.now) call.now.manifest.now collected }
    ensures { OnOk result (IfSome file.now
        (IsAcceptedWith (D.known call.now.disk.now) call.now.manifest.now)) }
{
    match file {
        Some(file) => match compare_by(call, collected, file, lines) {
            Ok(()) => Ok(()),
            Err(stop) => Err(stop),
        },
        None => {
            drop(collected);
            Ok(())
        }
    }
}
