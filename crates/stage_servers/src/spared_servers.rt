//! Servers that are left without a load: another server, and at a halt one at which loading would
//! change more than that.

// No contract says what is printed: bench/outside tests it.

use crate::collected::app_named;
use crate::drift::{push_serves, strange_app};
use crate::halted_app::halted_appid;
use crate::options::StageCall;
use crate::outcome::Lines;
use crate::serves::{Serves, Surveyed};
use load::{CollectedManifest, digest_of};
use printing::TextBuffer;
use stage_folder::StageFolder;
use stage_records::{ReplacedFile, StageAction};

// Whether a file of a folder has the bytes that a step left.
fn is_same<F: StageFolder>(folder: &F, file: &ReplacedFile) -> bool {
    match folder.read(file.name.as_str()) {
        Ok(Some(bytes)) => bytes.as_slice() == file.after.as_slice(),
        _ => false,
    }
}

// Whether loading what is in place, of this digest, may change more at a server than this one file.
// One of which nothing is known counts as no.
fn changes_more<F: StageFolder>(
    folder: &F,
    server: &Surveyed,
    digest: Option<[u8; 32]>,
    own: &str,
) -> bool {
    if digest.is_some() && server.digest == digest {
        return false;
    }
    match &server.serves {
        Serves::Step { files, .. } => {
            for file in files {
                if file.name.as_str() != own && !is_same(folder, file) {
                    return true;
                }
            }
            false
        }
        Serves::LastLoaded | Serves::Other { .. } => true,
        Serves::InPlace | Serves::Unknown => false,
    }
}

// The name of an app's file; empty without the app.
fn file_of<'a>(collected: Option<&'a CollectedManifest>, appid: &str) -> &'a str {
    let Some(manifest) = collected else {
        return "";
    };
    match app_named(&manifest.sources.apps, appid) {
        Some(app) => app.entry.source().file(),
        None => "",
    }
}

// Adds that a server is another one.
fn push_another(stderr: &mut TextBuffer, port: u16, appid: &str) {
    stderr.push_number(
        "server at ",
        port as u64,
        ": not loaded, it is another one: ",
    );
    stderr.push_printed("it serves ", appid, " (--other-server loads it)\n");
}

// Adds that a server isn't loaded by a halt, and whether it has halted the app.
fn push_spared(stderr: &mut TextBuffer, server: &Surveyed, appid: &str) {
    stderr.push_number("server at ", server.port as u64, ": not loaded, it serves ");
    push_serves(stderr, &server.serves);
    let end = if server.halts(appid) {
        " is halted there all the same (--anyway loads it, and all else that has changed)\n"
    } else {
        " isn't halted there (--anyway loads it, and all else that has changed)\n"
    };
    stderr.push_printed("; ", appid, end);
}

/// Whether a server is left without a load of what is in place, with a line that says why: another
/// server, unless `--other-server` is given; and at a halt one that says what it serves, and at
/// which loading may change more than that, unless `--anyway` is given.
pub(crate) fn is_spared<R, D, F>(
    call: &StageCall<'_, R, D>,
    folder: &F,
    server: &Surveyed,
    action: &StageAction<'_>,
    collected: Option<&CollectedManifest>,
    lines: &mut Lines,
) -> bool
where
    F: StageFolder,
{
    if let Some(appid) = strange_app(server) {
        if !call.options.other_server {
            push_another(&mut lines.stderr, server.port, appid);
        }
        return !call.options.other_server;
    }
    let Some(appid) = halted_appid(action) else {
        return false;
    };
    let digest = match collected {
        Some(manifest) => digest_of(&manifest.bytes, &manifest.sources.apps),
        None => None,
    };
    let own = file_of(collected, appid);
    let is_spared = !call.options.anyway && changes_more(folder, server, digest, own);
    if is_spared {
        push_spared(&mut lines.stderr, server, appid);
    }
    is_spared
}
