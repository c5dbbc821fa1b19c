//! From the bytes of a manifest to a ruleset.

ghost use Rattle.std.specs.Prelude.{◌≡◌, ℕ, List, IfOk, IfErr, None};
ghost use mathlib.Core.List.{IsPrefix};
ghost use Rattle.bounded_files.specs.Files.{KnownFiles};
ghost use Rattle.load.specs.Cause.{IsFaultWithCause};
ghost use Rattle.load.specs.Sources.{IsSourcesRefusal};
ghost use Rattle.load.specs.Judged.{CountsFault, CountsLoad};
ghost use Rattle.load.specs.Load.{IsRulesetOf, Loads, LoadsOver};
ghost use Rattle.load.specs.Made.{IsMadeOver};
ghost use Rattle.ruleset.specs.Rules.{KnowsOnly};

use crate::cause::cause_of;
use crate::files::Files;
use crate::laws::{sources_are_loaded, sources_are_made};
use crate::load_fault::LoadFault;
use crate::made::{judge_sources, make_ruleset};
use crate::refusal::SourcesRefusal;
use crate::sources::collect_sources;
use cells::{Directory, arrays_preserved};
use ruleset::{LoadedRuleset, Ruleset};
use std::alloc::Global;

/// Does what `load_over` does, but changes the directory in place. After a refusal it is unchanged.
/// It is the specification's call: servers take `load_with_digest`.
// open: what `load_over` leaves open.
pub fn load_ruleset<F: Files>(
    alloc: Global,
    manifest: &[u8],
    files: &mut F,
    directory: &mut Directory,
) -> Result<Ruleset, LoadFault>
    ensures known { F.known files.new ≡ F.known files.old }
    ensures loads { Loads (F.known files.old) directory.old manifest.now result directory.new }
    ensures only { IfOk result (KnowsOnly directory.new) }
    ensures grown { IsPrefix directory.old directory.new }
    ensures count { CountsLoad (F.known files.old) directory.old manifest.now (F.failed files.old)
        (F.failed files.new) result }
{
    match load_over(alloc, manifest, files, directory) {
        Ok((rules, grown)) => {
            *directory = grown;
            Ok(rules)
        }
        Err(fault) => Err(fault),
    }
}

/// The ruleset of a manifest, a TOML document of at most 1048576 bytes, and the directory with its
/// arrays declared after the existing ones; its programs know no other arrays. Array i of the
/// manifest, from 0, is map i of each of its programs.
///
/// Returns the first fault in this order:
///
/// - M1 to M3 of the manifest;
/// - M7 of the first array that can't be declared;
/// - app by app, M4 if its file can't be read, M5 if its bytes aren't a program, or M6 if they
///   don't spell a rule.
///
/// All files are read before the first is judged, as in `collect_sources`. Returns M8 if an
/// allocation fails or the count of unreadable files overflows. It is the specification's call:
/// servers take `load_with_digest`.
// open: whether an allocation fails (M8), and for M8 how far the count of unreadable files grew;
// what a device's files contain.
pub fn load_over<F: Files>(
    alloc: Global,
    manifest: &[u8],
    files: &mut F,
    directory: &Directory,
) -> Result<(Ruleset, Directory), LoadFault>
    ensures known { F.known files.new ≡ F.known files.old }
    ensures loads { LoadsOver (F.known files.old) directory.now manifest.now result }
    ensures only { IfOk result (λ loaded. KnowsOnly loaded.1 loaded.0) }
    ensures grown { IfOk result (λ loaded. IsPrefix directory.now loaded.1) }
    ensures count { CountsLoad (F.known files.old) directory.now manifest.now (F.failed files.old)
        (F.failed files.new) result }
{
    match load_bytes(alloc, manifest, files, directory) {
        Ok(
            LoadedRuleset {
                rules,
                directory,
                digest: _,
            },
        ) => Ok((rules, directory)),
        Err(
            BytesRefusal {
                fault,
                cause: _cause,
            },
        ) => Err(fault),
    }
}

/// Why the bytes of a manifest give no ruleset, and the cause that a log prints with the fault.
#[derive(Drop)]
pub(crate) struct BytesRefusal {
    pub(crate) fault: LoadFault,
    pub(crate) cause: Option<String>,
}

/// The load of a manifest with these bytes, and of the files that it names.
pub(crate) fn load_bytes<F: Files>(
    alloc: Global,
    manifest: &[u8],
    files: &mut F,
    directory: &Directory,
) -> Result<LoadedRuleset, BytesRefusal>
    ensures known { F.known files.new ≡ F.known files.old }
    ensures made { IfOk result (IsMadeOver (F.known files.old) directory.now manifest.now) }
    ensures rules { IfOk result (λ made. IsRulesetOf (F.known files.old) directory.now
        manifest.now made.rules made.directory) }
    ensures fault { IfErr result (λ refused. IsFaultWithCause (F.known files.old) directory.now
        manifest.now refused.fault refused.cause) }
    ensures only { IfOk result (λ made. KnowsOnly made.directory made.rules) }
    ensures grown { IfOk result (λ made. IsPrefix directory.now made.directory) }
    ensures count { IfOk result (λ made. F.failed files.new ≡ F.failed files.old) }
    ensures failed { IfErr result (λ refused. CountsFault (F.known files.old) directory.now
        manifest.now (F.failed files.old) (F.failed files.new) refused.fault) }
{
    sources_are_loaded();
    sources_are_made();
    arrays_preserved();
    let sources = match collect_sources(alloc, manifest, files, directory) {
        Ok(sources) => sources,
        Err(refused_sources) => return Err(refused(alloc, directory, refused_sources)),
    };
    let _arrays = sources.directory.arrays();
    let judged = match judge_sources(alloc, manifest, sources) {
        Ok(judged) => judged,
        Err(refused_apps) => {
            return Err(BytesRefusal {
                fault: refused_apps.into_fault(),
                cause: None,
            });
        }
    };
    match make_ruleset(alloc, judged) {
        Ok(made) => Ok(made),
        Err(_) => Err(BytesRefusal {
            fault: LoadFault::Memory,
            cause: None,
        }),
    }
}

// Why nothing is gathered from a manifest's bytes, with the cause.
fn refused(alloc: Global, directory: &Directory, refused_sources: SourcesRefusal) -> BytesRefusal
    ensures fault { result.fault ≡ refused_sources.fault }
    ensures cause { (known : KnownFiles) (bytes : List ℕ)
        → IsSourcesRefusal directory.now bytes refused_sources
        → IsFaultWithCause known directory.now bytes result.fault result.cause }
{
    let SourcesRefusal { fault, arrays, .. } = refused_sources;
    let cause = cause_of(alloc, directory, &arrays, &fault);
    BytesRefusal { fault, cause }
}
