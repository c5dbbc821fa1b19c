//! What each app of a manifest is offered, as a page shows it.

ghost use Rattle.std.specs.Prelude.{◌≡◌, All, IfOk, IfSome, List, string_bytes};
ghost use Rattle.cells.specs.Directory.{Declaration};
ghost use Rattle.folder_facts.specs.Digests.{IsDigestOf};
ghost use Rattle.folder_facts.specs.Offered.{AreOffered, IsQuotaIn};

use crate::digest::digest_text;
use crate::quotas::quotas_of;
use crate::unread::{no_file, no_more_apps};
use declarations::ArrayDeclaration;
use load::{AppSources, CollectedManifest, Sources, whole_file};
use manifest::{AppEntry, ProgramSource};
use printing::TextBuffer;
use report_page::{OfferedApp, OfferedQuota};
use rule_lang::Rule;
use stage_rules::halting_file;
use stage_text::{RuleText, rule_lines, rule_text};
use std::alloc::{AllocError, Global};

/// The apps that are shown, the digest of what is in place, and a sentence for each file that can't
/// be read.
#[derive(Drop)]
pub(crate) struct ShownApps {
    pub(crate) apps: Vec<OfferedApp>,
    pub(crate) digest: Option<String>,
    pub(crate) unread: Vec<String>,
}

// What the file of an app offers.
#[derive(Drop)]
struct Offer {
    statements: Vec<String>,
    quotas: Vec<OfferedQuota>,
}

// An offer in these words.
fn offer_in(alloc: Global, statements: Vec<String>) -> Offer
    ensures { (arrays : List Declaration) → All (IsQuotaIn arrays) result.quotas.items }
{
    Offer {
        statements,
        quotas: Vec::new(alloc),
    }
}

// What a program offers: nothing if it halts its app. Of any other that isn't known: it is named.
fn program_offer(alloc: Global, file: &str, halts: bool) -> Result<Offer, AllocError>
    ensures { (arrays : List Declaration)
        → IfOk result (λ offer. All (IsQuotaIn arrays) offer.quotas.items) }
{
    let mut text = TextBuffer::new(alloc);
    if halts {
        text.push("nothing to anybody");
    } else {
        text.push_printed("by the program ", file, "");
    }
    let line = text.finish()?;
    let lines = Vec::from_array(alloc, [line])?;
    Ok(offer_in(alloc, lines))
}

fn offer_of(
    alloc: Global,
    arrays: &[ArrayDeclaration],
    app: &AppEntry,
    rule: &Rule,
) -> Result<Offer, AllocError>
    ensures { IfOk result (λ offer. All (IsQuotaIn arrays.now) offer.quotas.items) }
{
    let statements = rule_lines(alloc, app, rule)?;
    let quotas = quotas_of(alloc, arrays, rule)?;
    Ok(Offer { statements, quotas })
}

// What an app's rule with these bytes offers.
fn rule_offer(
    alloc: Global,
    arrays: &[ArrayDeclaration],
    app: &AppSources,
    bytes: &[u8],
    unread: &mut Vec<String>,
) -> Result<Offer, AllocError>
    ensures { IfOk result (λ offer. All (IsQuotaIn arrays.now) offer.quotas.items) }
{
    match rule_text(alloc, &app.entry, &app.shape, bytes)? {
        RuleText::Rule(rule) => {
            let offer = offer_of(alloc, arrays, &app.entry, &rule);
            drop(rule);
            offer
        }
        RuleText::Other(sentence) => {
            unread.push(sentence)?;
            Ok(offer_in(alloc, Vec::new(alloc)))
        }
    }
}

// What an app's file offers: nothing is known if it can't be read.
fn file_offer(
    alloc: Global,
    arrays: &[ArrayDeclaration],
    app: &AppSources,
    unread: &mut Vec<String>,
) -> Result<Offer, AllocError>
    ensures { IfOk result (λ offer. All (IsQuotaIn arrays.now) offer.quotas.items) }
{
    let file = app.entry.source().file();
    let Some(bytes) = whole_file(&app.kept) else {
        unread.push(no_file(alloc, file)?)?;
        return Ok(offer_in(alloc, Vec::new(alloc)));
    };
    match app.entry.source() {
        ProgramSource::Program(_) => {
            program_offer(alloc, file, bytes == halting_file(app.entry.source()))
        }
        ProgramSource::Rule(_) => rule_offer(alloc, arrays, app, bytes, unread),
    }
}

fn offered_app(
    alloc: Global,
    arrays: &[ArrayDeclaration],
    app: &AppSources,
    unread: &mut Vec<String>,
) -> Result<OfferedApp, AllocError>
    ensures appid { IfOk result
        (λ offered. string_bytes offered.appid ≡ app.now.entry.appid) }
    ensures quotas { IfOk result
        (λ offered. All (IsQuotaIn arrays.now) offered.quotas.items) }
{
    let appid = String::from_str(alloc, app.entry.appid())?;
    let Offer { statements, quotas } = file_offer(alloc, arrays, app, unread)?;
    Ok(OfferedApp {
        appid,
        statements,
        quotas,
    })
}

fn offered_apps(
    alloc: Global,
    sources: &Sources,
    unread: &mut Vec<String>,
) -> Result<Vec<OfferedApp>, AllocError>
    ensures { IfOk result (λ apps. AreOffered sources.now apps.items) }
{
    let mut apps = Vec::new(alloc);
    let mut left = sources.apps.as_slice();
    while let [app, others @ ..] = left {
        apps.push(offered_app(alloc, &sources.arrays, app, unread)?)?;
        left = others;
    }
    Ok(apps)
}

/// What the apps of a manifest are offered, by their files, and its digest.
pub(crate) fn shown_apps(
    alloc: Global,
    collected: &CollectedManifest,
) -> Result<ShownApps, AllocError>
    ensures apps { IfOk result (λ shown. AreOffered collected.now.sources shown.apps.items) }
    ensures digest { IfOk result (λ shown. IfSome shown.digest (IsDigestOf collected.now)) }
{
    let sources = &collected.sources;
    let mut unread = Vec::new(alloc);
    let apps = offered_apps(alloc, sources, &mut unread)?;
    if sources.unread > 0 {
        unread.push(no_more_apps(alloc, sources.unread)?)?;
    }
    let digest = digest_text(alloc, collected)?;
    Ok(ShownApps {
        apps,
        digest,
        unread,
    })
}
