//! The arguments of `stage`.

ghost use Rattle.std.specs.Prelude.{◌≡◌, ◌∷◌, [], IfNone, IfOk, IfSome, None, Some, codes, map};
ghost use Rattle.std.specs.Prelude.{option_copied, unwrap_or};
ghost use Rattle.clap.specs.Words.{first_of, found_of, rows_of};
ghost use Rattle.cli_base.specs.Values.{OnWrong, texts_of as all_texts};
ghost use Rattle.cli_tool_words.specs.StageWords as specs;
ghost use Rattle.cli_tool_words.specs.Words.{VerbMakes, VerbMakesNone};

use crate::args::{StageArgs, ToolCommand};
use crate::buckets::buckets_in;
use crate::verb::ToolVerb;
use clap::ArgMatches;
use cli_base::{ArgsError, ArgumentFault, flag_of, optional_text, texts_of};
use lexing::decimal_within;
use stage_records::StageAction;
use std::alloc::Global;

/// The command of `stage`.
pub(crate) fn read_stage<'a>(
    alloc: Global,
    found: &ArgMatches<'a>,
) -> Result<ToolCommand<'a>, ArgsError>
    ensures made { IfOk result (VerbMakes ToolVerb.Stage (rows_of (found_of found.now))) }
    ensures none { OnWrong result (VerbMakesNone ToolVerb.Stage (rows_of (found_of found.now))) }
{
    let action = action_of(alloc, found)?;
    let user = note_of(found, "by", ArgumentFault::By)?;
    let because = note_of(found, "because", ArgumentFault::Because)?;
    let operators = ports_of(alloc, found)?;
    Ok(ToolCommand::Stage(StageArgs {
        action,
        operators,
        folder: folder_of(found),
        log: optional_text(found, "log"),
        user,
        because,
        no_load: flag_of(found, "no-load"),
        dry_run: flag_of(found, "dry-run"),
        anyway: flag_of(found, "anyway"),
        other_server: flag_of(found, "other-server"),
    }))
}

/// The most bytes of a name or a reason.
pub(crate) const MOST_NOTE: usize = 1024;

// The text of an option that a step records.
#[tactic(auto, using(crate::proofs::Percents::too_long))]
fn note_of<'a>(
    found: &ArgMatches<'a>,
    id: &str,
    fault: ArgumentFault,
) -> Result<Option<&'a str>, ArgsError>
    ensures given { IfOk result (λ note.
        specs.HasNote id.now (rows_of (found_of found.now)) (option_copied note)) }
    ensures lacking { OnWrong result (specs.LacksNote id.now (rows_of (found_of found.now))) }
{
    match optional_text(found, id) {
        None => Ok(None),
        Some(text) => {
            if text.len() > MOST_NOTE {
                return Err(ArgsError::Wrong(fault));
            }
            Ok(Some(text))
        }
    }
}

fn folder_of<'a>(found: &ArgMatches<'a>) -> &'a str
    ensures { result.now ≡ unwrap_or
        (first_of (codes "folder") (rows_of (found_of found.now))) (codes "/etc/rollout") }
{
    match optional_text(found, "folder") {
        Some(folder) => folder,
        None => "/etc/rollout",
    }
}

// ---- the action

fn action_of<'a>(alloc: Global, found: &ArgMatches<'a>) -> Result<StageAction<'a>, ArgsError>
    ensures given { IfOk result
        (specs.Spell (all_texts (codes "ACTION") (rows_of (found_of found.now)))) }
    ensures lacking { OnWrong result
        (specs.SpellNone (all_texts (codes "ACTION") (rows_of (found_of found.now)))) }
{
    let Ok(words) = texts_of(alloc, found, "ACTION") else {
        return Err(ArgsError::Memory);
    };
    match action_in(words.as_slice()) {
        Some(action) => Ok(action),
        None => Err(ArgsError::Wrong(ArgumentFault::Stage)),
    }
}

fn action_in<'a>(words: &[&'a str]) -> Option<StageAction<'a>>
    ensures given { IfSome result (specs.Spell (map (λ word. word.now) words.now)) }
    ensures lacking { IfNone result (specs.SpellNone (map (λ word. word.now) words.now)) }
{
    match words {
        [] => None,
        [word] => bare_action(word),
        [word, object] => action_on(word, object),
        [word, appid, number] => action_with(word, appid, number),
        _ => None,
    }
}

fn bare_action<'a>(word: &str) -> Option<StageAction<'a>>
    ensures given { IfSome result (specs.Spell (word.now ∷ [])) }
    ensures lacking { IfNone result (specs.SpellNone (word.now ∷ [])) }
{
    match word {
        "back" => Some(StageAction::Back),
        "status" => Some(StageAction::Status),
        "history" => Some(StageAction::History { appid: None }),
        _ => None,
    }
}

fn action_on<'a>(word: &str, object: &'a str) -> Option<StageAction<'a>>
    ensures given { IfSome result (specs.Spell (word.now ∷ object.now ∷ [])) }
    ensures lacking { IfNone result (specs.SpellNone (word.now ∷ object.now ∷ [])) }
{
    match word {
        "halt" => Some(StageAction::Halt { appid: object }),
        "put" => Some(StageAction::Put { manifest: object }),
        "resume" => Some(StageAction::Resume {
            appid: object,
            buckets: None,
        }),
        "history" => Some(StageAction::History {
            appid: Some(object),
        }),
        _ => None,
    }
}

fn action_with<'a>(word: &str, appid: &'a str, object: &'a str) -> Option<StageAction<'a>>
    ensures given { IfSome result (specs.Spell (word.now ∷ appid.now ∷ object.now ∷ [])) }
    ensures lacking { IfNone result
        (specs.SpellNone (word.now ∷ appid.now ∷ object.now ∷ [])) }
{
    match word {
        "halt" => Some(StageAction::HaltRelease {
            appid,
            version: object,
        }),
        "raise" => raise_of(appid, object),
        "resume" => resume_of(appid, object),
        _ => None,
    }
}

#[tactic(auto, using(crate::proofs::Percents::no_share))]
fn raise_of<'a>(appid: &'a str, number: &str) -> Option<StageAction<'a>>
    ensures given { IfSome result
        (specs.Spell (codes "raise" ∷ appid.now ∷ number.now ∷ [])) }
    ensures lacking { IfNone result
        (specs.SpellNone (codes "raise" ∷ appid.now ∷ number.now ∷ [])) }
{
    match buckets_in(number) {
        Some(buckets) => Some(StageAction::Raise { appid, buckets }),
        None => None,
    }
}

#[tactic(auto, using(crate::proofs::Percents::no_share))]
fn resume_of<'a>(appid: &'a str, number: &str) -> Option<StageAction<'a>>
    ensures given { IfSome result
        (specs.Spell (codes "resume" ∷ appid.now ∷ number.now ∷ [])) }
    ensures lacking { IfNone result
        (specs.SpellNone (codes "resume" ∷ appid.now ∷ number.now ∷ [])) }
{
    match buckets_in(number) {
        Some(buckets) => Some(StageAction::Resume {
            appid,
            buckets: Some(buckets),
        }),
        None => None,
    }
}

// ---- the servers

fn ports_of(alloc: Global, found: &ArgMatches<'_>) -> Result<Vec<u16>, ArgsError>
    ensures given { IfOk result (λ ports.
        specs.ports_in (all_texts (codes "operator") (rows_of (found_of found.now)))
        ≡ Some ports.items) }
    ensures lacking { OnWrong result
        (specs.ports_in (all_texts (codes "operator") (rows_of (found_of found.now))) ≡ None) }
{
    let Ok(texts) = texts_of(alloc, found, "operator") else {
        return Err(ArgsError::Memory);
    };
    ports_in(alloc, texts.as_slice())
}

fn ports_in(alloc: Global, given: &[&str]) -> Result<Vec<u16>, ArgsError>
    ensures given { IfOk result (λ ports.
        specs.ports_in (map (λ text. text.now) given.now) ≡ Some ports.items) }
    ensures lacking { OnWrong result (specs.ports_in (map (λ text. text.now) given.now) ≡ None) }
{
    let mut ports = Vec::new(alloc);
    let mut rest = given;
    while let [text, more @ ..] = rest {
        let Some(port) = port_in(text) else {
            return Err(ArgsError::Wrong(ArgumentFault::Operator));
        };
        match ports.push(port) {
            Ok(()) => rest = more,
            Err(_) => return Err(ArgsError::Memory),
        }
    }
    Ok(ports)
}

fn port_in(text: &str) -> Option<u16>
    ensures { result ≡ specs.port_in text.now }
{
    let port = decimal_within(text, 1, 65535)?;
    Some(port as u16)
}
