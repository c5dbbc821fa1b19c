//! The check of a manifest, from its bytes to the report.

ghost use Rattle.std.specs.Prelude.{◌≡◌, [], length, All, IfOk, IfErr};
ghost use Rattle.why_refused_manifest.specs.Check.{FailsApps, FailsCheck, FailsIfLong, PassesApps};
ghost use Rattle.why_refused_manifest.specs.Check.{PassesCheck};
ghost use Rattle.why_refused_manifest.specs.Reported.{ReportsRefused};
ghost use Rattle.load.specs.Sources.{HasItsReleases};
ghost use Rattle.load.specs.declared.sources.Sources.{Sources};

use crate::accepted::{CheckedManifest, report_accepted};
use crate::refusal_report::report_refused;
use crate::refused::Refused;
use cells::Directory;
use load::{
    Files, LoadFault, RefusedApps, Sources, SourcesRefusal, collect_sources, judge_sources,
    sources_are_loaded,
};
use manifest::{ManifestFault, Parsed, TomlFault};
use std::alloc::Global;

/// Checks a manifest: loads it with its files into a directory of its own. The report on a file is
/// about exactly the bytes that were judged. Quotes from the manifest and its files are printed
/// without control characters.
///
/// For an accepted manifest the text has a line for each array, in order, such as `array q:64:1:2`
/// (a quota comes last, if there is one). Then it has a line for each app: `app APPID releases R
/// slots S`. Lines are ended by a line feed.
///
/// There is a warning for each array that no program uses, and for each that several apps use.
/// Then, for each app, there is one if its appid has an unprintable character. There is one for
/// each release whose version (as four numbers) a later release also has, or whose codebase doesn't
/// end in `/`, or begins with neither `https://` nor `http://`. The warnings on the app's rule come
/// last (`push_rule_warnings` of `warnings`).
///
/// For a refused manifest the reason begins with the path of a member and what is expected there;
/// in the path, the tables of a list are numbered from 1:
///
/// - M1: that there are too many bytes, or the message of the crate `toml`, followed by how tables
///   begin. Nothing is promised about that message except how it is printed. It quotes the
///   manifest, so it is left out if the manifest itself is a symbolic link.
/// - M2: `app[2].release[1].size: a whole number from 0 to 9007199254740991`.
/// - M3: `array q occurs twice` or `app x occurs twice`.
/// - M4 to M6: `app[1].rule: x.rule`, the name of the file as the manifest has it. If M6 has a
///   line, it is followed by what is there and what is expected, such as `line 2, column 9: ..`,
///   and below it the line and a caret (`rule_fault_message` of `why_refused_rule`). If that isn't
///   available, only the line follows, such as `line 2: count q[0];`, or the message that the file
///   isn't UTF-8 text. If M5 has a slot at which an instruction begins, the instruction follows as
///   it is listed: `slot 1: exit`; if the verifier refuses it, also the sentence of
///   `refused_place`. For an object of ELF there is the command that makes a program of it instead.
///   These lines are left out if the file is outside the manifest's folder: its name is absolute or
///   has a part `..`, or the disk reports that it, or a folder of its path, is a symbolic link.
/// - M7: `array[2].length: r passes the 4096 cells that all arrays of a width have`.
///
/// After the reason of M4 to M6 the apps after the first refused one are judged separately.
/// After the reason of M7 the arrays after it are judged, each together with the declarable arrays
/// before it. After the reason of M2 come all other schema errors: the first unknown member, the
/// server, and the first error of each array and each app. After the reason of M3 comes each other
/// duplicate name. The first nine of these further faults are printed like the load's own fault, by
/// the line of the refusal and the reason. A last line counts the rest: `and 3 more`.
///
/// A file that is too long is a fault, whatever its contents. Once such files have more than 64 MiB
/// in all, no further file is read. The last line then is `after app 5 no file is read: those
/// before that are too long have more than 64 MiB`.
///
/// Returns M8 if an allocation fails for the load or for the text about an accepted manifest, and
/// if the count of unreadable files overflows. If an allocation fails for the reason, the reason is
/// left out, entirely or except for the file's name; the same holds for the further faults.
// open: whether an allocation fails; the words of the lines, and the place in a file: rows; that
// the reason and the further faults are left out only if out of memory: tests; that it asks the
// disk whether the manifest is a symbolic link, or a file's path has one: `bench/hostile`.
pub fn check<F: Files>(
    alloc: Global,
    manifest: &[u8],
    files: &mut F,
) -> Result<CheckedManifest, Refused>
    ensures known { F.known files.new ≡ F.known files.old }
    ensures passes { IfOk result (PassesCheck (F.known files.old) manifest.now) }
    ensures fails { IfErr result (FailsCheck (F.known files.old) manifest.now) }
{
    sources_are_loaded();
    let directory = Directory::new(alloc);
    match collect_sources(alloc, manifest, files, &directory) {
        Ok(sources) => check_apps(alloc, manifest, sources),
        Err(refused_sources) => {
            let is_link = files.is_manifest_link();
            Err(refuse_without_sources(alloc, is_link, refused_sources))
        }
    }
}

// Judges the gathered apps: all pass, or the first that has no program is reported.
fn check_apps(alloc: Global, manifest: &[u8], sources: Sources) -> Result<CheckedManifest, Refused>
    requires { All HasItsReleases sources.apps.items }
    ensures passes { IfOk result (PassesApps manifest.now sources) }
    ensures fails { IfErr result (FailsApps sources) }
{
    let read = sources.apps.len();
    let unread = sources.unread;
    match judge_sources(alloc, manifest, sources) {
        Ok(judged) => match report_accepted(alloc, judged) {
            Ok(reported) => Ok(reported),
            Err(_) => Err(out_of_memory(alloc, read, unread)),
        },
        Err(refused) => {
            let RefusedApps { fault, sources } = refused;
            Err(refuse_sources(alloc, &sources, fault))
        }
    }
}

fn refuse_sources(alloc: Global, sources: &Sources, fault: LoadFault) -> Refused
    ensures fault { result.fault ≡ fault }
    ensures reported { ReportsRefused Parsed.Nothing sources.now.arrays.items sources.now.apps.items
        sources.now.unread result }
{
    let arrays = sources.arrays.as_slice();
    let apps = sources.apps.as_slice();
    report_refused(
        alloc,
        &Parsed::Nothing,
        false,
        arrays,
        apps,
        sources.unread,
        fault,
    )
}

fn refuse_without_sources(alloc: Global, is_link: bool, refused_sources: SourcesRefusal) -> Refused
    ensures fault { result.fault ≡ refused_sources.fault }
    ensures reported { ReportsRefused refused_sources.parsed refused_sources.arrays.items [] 0
        result }
{
    let SourcesRefusal {
        fault,
        arrays,
        parsed,
    } = refused_sources;
    report_refused(alloc, &parsed, is_link, arrays.as_slice(), &[], 0, fault)
}

fn out_of_memory(alloc: Global, read: usize, unread: usize) -> Refused
    ensures fault { result.fault ≡ LoadFault.Memory }
    ensures reported { (g : Sources) → read ≡ length g.apps.items → unread ≡ g.unread
        → FailsApps g result }
{
    Refused {
        fault: LoadFault::Memory,
        reason: String::new(alloc),
        own: String::new(alloc),
        further: Vec::new(alloc),
        left_out: 0,
        read,
        unread,
    }
}

/// The refusal of a manifest of more than 1048576 bytes: M1, which needs none of the bytes.
// open: whether an allocation fails; the reason: rows.
pub fn too_long(alloc: Global) -> Refused
    ensures { FailsIfLong result }
{
    let fault = LoadFault::Manifest(ManifestFault::Toml(TomlFault::TooLong));
    report_refused(alloc, &Parsed::Nothing, false, &[], &[], 0, fault)
}
