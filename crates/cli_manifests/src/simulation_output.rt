//! The report on a simulation, as lines or as JSON, and its picture.

ghost use Rattle.std.specs.Prelude.{IfOk, is_some, option_copied};
ghost use Rattle.std.specs.String.{string_bytes};
ghost use Rattle.cli_manifests.specs.Simulations as specs;
ghost use Rattle.markup.specs.WellFormed.{HasPicture};

use crate::simulation_options::SimulationOptions;
use simulate::{Simulated, draw, is_lossy, moves_json, push_moves, push_shares, shares_json};
use std::alloc::{AllocError, Global};

/// The report on a simulation: its lines, each ended by LF, or its line of JSON; and its picture as
/// the text of an SVG file, if a file is named for it.
#[derive(Drop)]
pub struct SimulationOutput {
    pub text: String,
    pub picture: Option<String>,
    /// Whether some bucket loses the release that it has of a reported app, compared with another
    /// manifest; the lines mark such rows.
    pub loses: bool,
}

// The report on a simulation, and its picture.
pub(crate) fn format_alone(
    alloc: Global,
    next: &Simulated,
    options: &SimulationOptions<'_>,
) -> Result<SimulationOutput, AllocError>
    ensures { IfOk result (specs.FormatsAlone next.now options.now) }
{
    let text = text_alone(alloc, next, options.json)?;
    let picture = picture_if(alloc, options.picture, next)?;
    Ok(SimulationOutput {
        text,
        picture,
        loses: false,
    })
}

// As lines, or as JSON.
fn text_alone(alloc: Global, next: &Simulated, json: bool) -> Result<String, AllocError>
    ensures { IfOk result (λ text. specs.IsTextAlone json next.now (string_bytes text)) }
{
    if json {
        return shares_json(alloc, next);
    }
    let mut text = String::new(alloc);
    push_shares(&mut text, next)?;
    Ok(text)
}

// The same, between the line of these clients and the moves from what is served.
pub(crate) fn format_against(
    alloc: Global,
    clients: &str,
    now: &Simulated,
    next: &Simulated,
    options: &SimulationOptions<'_>,
) -> Result<SimulationOutput, AllocError>
    ensures { IfOk result (specs.FormatsAgainst next.now now.now options.now) }
{
    let text = text_against(alloc, clients, now, next, options.json)?;
    let loses = is_lossy(alloc, now, next)?;
    let picture = picture_if(alloc, options.picture, next)?;
    Ok(SimulationOutput {
        text,
        picture,
        loses,
    })
}

fn text_against(
    alloc: Global,
    clients: &str,
    now: &Simulated,
    next: &Simulated,
    json: bool,
) -> Result<String, AllocError>
    ensures { IfOk result (λ text. specs.IsTextAgainst json now.now next.now (string_bytes text)) }
{
    if json {
        return moves_json(alloc, now, next);
    }
    let mut text = String::from_str(alloc, clients)?;
    push_shares(&mut text, next)?;
    push_moves(alloc, &mut text, now, next)?;
    Ok(text)
}

// The picture of a simulation, if a file is named for it.
fn picture_if(
    alloc: Global,
    file: Option<&str>,
    simulated: &Simulated,
) -> Result<Option<String>, AllocError>
    ensures { IfOk result (HasPicture (is_some (option_copied file.entry))) }
{
    match file {
        Some(_) => Ok(Some(draw(alloc, simulated)?)),
        None => Ok(None),
    }
}
