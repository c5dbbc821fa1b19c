//! What a server says, in the text format of Prometheus or as rows of a screen.

ghost use Rattle.std.specs.Prelude.{◌≡◌, IfOk, OnOk, map, true};
ghost use Rattle.std.specs.Option.{option_copied};
ghost use Rattle.std.specs.String.{string_bytes};
ghost use Rattle.printing.specs.Pushed.{Puts};
ghost use Rattle.server_metrics.specs.Servers as specs;
ghost use Rattle.server_replies.specs.Said.{replies_of, said_by};

use crate::gauges::push_gauge;
use cell_assignments::read_assignments;
use report::{counters_text, push_label};
use server_replies::{ServerFacts, ServerReplies, first_after, lines_of, path_of_load, text_after};
use std::alloc::{AllocError, Global};
use std::fmt::Write;

/// What a server says, in the text format of Prometheus or as rows of a screen, with the heads of
/// their columns or without. The rows are those of its counters. The text is empty without a
/// server.
// open: whether an allocation fails, its only error; the rows of a screen: rows.
pub fn server_text(
    alloc: Global,
    prometheus: bool,
    heads: bool,
    server: Option<ServerFacts<'_>>,
) -> Result<String, AllocError>
    ensures { IfOk result (λ text. prometheus ≡ true
        → string_bytes text ≡ specs.server_exposition (said_by server.entry)) }
{
    let Some(server) = server else {
        return Ok(String::new(alloc));
    };
    if prometheus {
        exposition_of(alloc, server.replies)
    } else {
        screen_of(alloc, heads, server.replies)
    }
}

// The rows of its counters.
fn screen_of(
    alloc: Global,
    heads: bool,
    replies: Option<ServerReplies<'_>>,
) -> Result<String, AllocError> {
    match replies {
        Some(replies) => counters_of(alloc, false, heads, replies.cells),
        None => Ok(String::new(alloc)),
    }
}

fn counters_of(
    alloc: Global,
    prometheus: bool,
    heads: bool,
    cells: &str,
) -> Result<String, AllocError>
    ensures { IfOk result (λ text. prometheus ≡ true
        → string_bytes text ≡ specs.cells_exposition cells.now) }
{
    let counters = read_assignments(alloc, cells)?;
    counters_text(alloc, prometheus, heads, counters.as_slice())
}

fn exposition_of(alloc: Global, replies: Option<ServerReplies<'_>>) -> Result<String, AllocError>
    ensures { IfOk result (λ text.
        string_bytes text ≡ specs.replies_exposition (replies_of replies.entry)) }
{
    let mut text = String::new(alloc);
    match replies {
        Some(replies) => {
            push_up(&mut text, true)?;
            push_state(alloc, &mut text, replies.state)?;
            let counters = counters_of(alloc, true, false, replies.cells)?;
            text.push_str(counters.as_str())?;
        }
        None => push_up(&mut text, false)?,
    }
    Ok(text)
}

// Whether a server replies.
fn push_up(text: &mut String, is_up: bool) -> Result<(), AllocError>
    ensures { OnOk result (Puts text.old text.new (specs.up_metric is_up)) }
{
    push_gauge(text, "rollout_up", "Whether the server replies.")?;
    text.push_str(if is_up {
        "rollout_up 1\n"
    } else {
        "rollout_up 0\n"
    })
}

fn push_state(alloc: Global, text: &mut String, state: Option<&str>) -> Result<(), AllocError>
    ensures { OnOk result (Puts text.old text.new
        (specs.state_metrics (option_copied state.entry))) }
{
    match state {
        Some(reply) => {
            let lines = lines_of(alloc, reply)?;
            push_lines(text, lines.as_slice())
        }
        None => Ok(()),
    }
}

// The metrics of the lines of a state.
fn push_lines(text: &mut String, lines: &[&str]) -> Result<(), AllocError>
    ensures { OnOk result (Puts text.old text.new
        (specs.lines_metrics (map (λ line. line.now) lines.now))) }
{
    push_generation(text, word_in("generation", lines))?;
    push_ruleset(
        text,
        word_in("digest", lines),
        path_of_load(word_in("loaded", lines)),
    )?;
    push_halted(text, lines)?;
    Ok(())
}

// What follows a word in the lines, or nothing.
fn word_in<'a>(word: &str, lines: &[&'a str]) -> &'a str
    ensures { result.now ≡ specs.word_in word.now (map (λ line. line.now) lines.now) }
{
    match first_after(word, lines) {
        Some(text) => text,
        None => "",
    }
}

fn push_generation(text: &mut String, digits: &str) -> Result<(), AllocError>
    ensures { OnOk result (Puts text.old text.new (specs.generation_metric digits.now)) }
{
    push_gauge(text, "rollout_generation", "The generation served.")?;
    write!(text, "rollout_generation {digits}\n")
}

fn push_ruleset(text: &mut String, digest: &str, path: &str) -> Result<(), AllocError>
    ensures { OnOk result (Puts text.old text.new (specs.ruleset_metric digest.now path.now)) }
{
    push_gauge(text, "rollout_ruleset", "What was loaded last.")?;
    text.push_str("rollout_ruleset{")?;
    push_label(text, "digest", digest)?;
    text.push_str(",")?;
    push_label(text, "path", path)?;
    text.push_str("} 1\n")
}

// A sample for each halted app.
fn push_halted(text: &mut String, lines: &[&str]) -> Result<(), AllocError>
    ensures { OnOk result (Puts text.old text.new
        (specs.halted_metric (map (λ line. line.now) lines.now))) }
{
    push_gauge(text, "rollout_app_halted", "Apps that are halted.")?;
    push_samples(text, lines)
}

#[tactic(auto, using(crate::proofs::Written::one_further, crate::proofs::Written::at_end))]
fn push_samples(text: &mut String, lines: &[&str]) -> Result<(), AllocError>
    ensures { OnOk result (Puts text.old text.new
        (specs.halted_samples (map (λ line. line.now) lines.now))) }
{
    let mut left = lines;
    while let [line, rest @ ..] = left {
        push_sample(text, text_after("halted", line))?;
        left = rest;
    }
    Ok(())
}

fn push_sample(text: &mut String, appid: Option<&str>) -> Result<(), AllocError>
    ensures { OnOk result (Puts text.old text.new
        (specs.halted_sample (option_copied appid.entry))) }
{
    match appid {
        Some(appid) => {
            text.push_str("rollout_app_halted{")?;
            push_label(text, "appid", appid)?;
            text.push_str("} 1\n")
        }
        None => Ok(()),
    }
}
