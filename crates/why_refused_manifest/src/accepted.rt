//! The report on an accepted manifest.

ghost use Rattle.std.specs.Prelude.{All, IfOk};
ghost use Rattle.why_refused_manifest.specs.Check.{ReportsJudged};
ghost use Rattle.load.specs.Sources.{HasItsReleases};
ghost use Rattle.load.specs.JudgedApps.{IsJudgedApp, sources_of};

use crate::warned::{warning_text, warnings_of_apps};
use bpf_verify::Verified;
use declarations::ArrayDeclaration;
use load::{JudgedManifest, supply};
use printing::TextBuffer;
use ruleset::App;
use std::alloc::{AllocError, Global};
use warnings::Warning;

/// The report on an accepted manifest.
#[derive(Drop)]
pub struct CheckedManifest {
    /// Its arrays, in order.
    pub arrays: Vec<ArrayDeclaration>,
    /// Its apps, in order, each with its program and its releases.
    pub apps: Vec<App>,
    /// What it declares: a line for each array, then a line for each app, each ended by a line
    /// feed.
    pub text: String,
    /// The warnings, in the order in which they are printed.
    pub warnings: Vec<Warning>,
    /// The digest of its bytes and of its apps' files (`digest_of` of `load`), which a server
    /// prints for what it loaded.
    pub digest: [u8; 32],
}

/// The lines of its arrays and apps, the warnings, and the digest.
pub(crate) fn report_accepted(
    alloc: Global,
    judged: JudgedManifest,
) -> Result<CheckedManifest, AllocError>
    requires shaped { All HasItsReleases (sources_of judged.apps.items) }
    requires judged { All IsJudgedApp judged.apps.items }
    ensures { IfOk result (ReportsJudged judged) }
{
    let Ok(reported) = warnings_of_apps(alloc, judged.apps.as_slice()) else {
        return Err(AllocError);
    };
    let JudgedManifest {
        server: _server,
        arrays,
        directory,
        apps: judged_apps,
        digest,
    } = judged;
    let Ok(apps) = supply(alloc, judged_apps) else {
        return Err(AllocError);
    };
    let Ok(text) = accepted_lines(alloc, arrays.as_slice(), apps.as_slice()) else {
        return Err(AllocError);
    };
    let Ok(warnings) = warning_text(
        alloc,
        directory.arrays(),
        apps.as_slice(),
        reported.as_slice(),
    ) else {
        return Err(AllocError);
    };
    Ok(CheckedManifest {
        arrays,
        apps,
        text,
        warnings,
        digest,
    })
}

fn accepted_lines(
    alloc: Global,
    arrays: &[ArrayDeclaration],
    apps: &[App],
) -> Result<String, AllocError> {
    let mut text = TextBuffer::new(alloc);
    for array in arrays {
        text.push("array ");
        text.push_value(array);
        text.push("\n");
    }
    for app in apps {
        let program: &Verified = app.program();
        text.push_printed("app ", app.appid(), "");
        text.push_number(" releases ", app.releases().len() as u64, "");
        text.push_number(" slots ", program.len() as u64, "\n");
    }
    text.finish()
}
