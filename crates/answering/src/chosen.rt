//! The reply to a request by choices that are known, instead of runs that are made.

ghost use Rattle.std.specs.Prelude.{◌≡◌, ◌<◌, length, slice_index_or, IfOk, IfErr};
ghost use Rattle.attrs.specs.Bucket.{hashed_bucket};
ghost use Rattle.answering.specs.Found as specs;

use attrs::{Bucket, Moment, RequestFacts, SharedFacts, hashed_bucket, named_or_hashed};
use omaha_json::{FoundApp, OmahaFault, Request, found_text};
use ruleset::{App, Ruleset};
use std::alloc::{AllocError, Global};

/// The reply to a request under a ruleset at a moment, with the choice of each app's run, in the
/// apps' order. The choice is `None` if no run was made, since the app requested no update or isn't
/// in the ruleset. This is the specification's call; servers take `found_text`, by what `run_apps`
/// found.
// open: whether an allocation fails (O5).
pub fn reply_text(
    alloc: Global,
    request: &Request,
    rules: &Ruleset,
    choices: &[Option<u8>],
    moment: Moment,
) -> Result<Vec<u8>, OmahaFault>
    requires { length choices.now ≡ length request.now.apps }
    ensures text { IfOk result (λ text.
        text.items ≡ specs.reply_text request.now rules.now choices.now moment) }
    ensures memory { IfErr result (λ e. e ≡ OmahaFault.Memory) }
{
    let apps = request.apps();
    let Ok(found) = find_apps(alloc, request.facts(), apps, rules, choices) else {
        return Err(OmahaFault::Memory);
    };
    let room = Vec::new(alloc);
    match found_text(room, rules.server(), apps, found.as_slice(), &moment) {
        Ok(text) => Ok(text),
        Err(_) => Err(OmahaFault::Memory),
    }
}

// What a ruleset has for each app of a request, with the choice of its run.
fn find_apps<'r>(
    alloc: Global,
    facts: &RequestFacts,
    apps: &[SharedFacts],
    rules: &'r Ruleset,
    choices: &[Option<u8>],
) -> Result<Vec<Option<FoundApp<'r>>>, AllocError>
    requires { length choices.now ≡ length apps.now }
    ensures found { IfOk result (λ found. found.items
        ≡ specs.found_apps rules.now facts.now apps.now choices.now) }
    ensures each { IfOk result (λ found. length found.items ≡ length apps.now) }
{
    let hashed = hashed_bucket(facts);
    let mut found = Vec::with_capacity(alloc, apps.len())?;
    for i in 0..apps.len() {
        found.push(find_app(&apps[i], hashed, rules, choice_at(choices, i)))?;
    }
    Ok(found)
}

// The choice of an app's run.
fn choice_at(choices: &[Option<u8>], place: usize) -> Option<u8>
    requires { place < length choices.now }
    ensures { result ≡ slice_index_or choices.now place result }
{
    choices[place]
}

// What a ruleset has for an app of a request whose hashed bucket is known.
fn find_app<'r>(
    app: &SharedFacts,
    hashed: Bucket,
    rules: &'r Ruleset,
    choice: Option<u8>,
) -> Option<FoundApp<'r>>
    ensures { (facts : _) → hashed ≡ hashed_bucket facts
        → result ≡ specs.found_app rules.now facts app.now choice }
{
    match rules.find(app.appid()) {
        Some(known) => Some(listed_app(known, app, hashed, choice)),
        None => None,
    }
}

/// What is found for an app of the ruleset. An app that names no bucket is in the hashed one.
pub(crate) fn listed_app<'r>(
    known: &'r App,
    app: &SharedFacts,
    hashed: Bucket,
    choice: Option<u8>,
) -> FoundApp<'r>
    ensures { (facts : _) → hashed ≡ hashed_bucket facts
        → result ≡ specs.listed_app facts app.now choice known.now }
{
    let bucket = named_or_hashed(app.facts(), hashed);
    FoundApp::new(known.releases(), bucket, choice)
}
