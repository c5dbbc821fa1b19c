//! The arguments of `ask`.

ghost use Rattle.std.specs.Prelude.{◌≡◌, IfOk, None, Some, map};
ghost use Rattle.clap.specs.Words.{found_of, rows_of};
ghost use Rattle.cli_base.specs.Values.{OnWrong};
ghost use Rattle.cli_tool_words.specs.AskWords as specs;
ghost use Rattle.cli_tool_words.specs.Words.{VerbMakes, VerbMakesNone};

use crate::args::{AskArgs, ToolCommand};
use crate::verb::ToolVerb;
use cell_assignments::CellAssignment;
use clap::ArgMatches;
use cli_base::{ArgsError, ArgumentFault, flag_of, optional_number, second_of, text_of, texts_of};
use std::alloc::Global;

/// The command of `ask`.
pub(crate) fn read_ask<'a>(
    alloc: Global,
    found: &ArgMatches<'a>,
) -> Result<ToolCommand<'a>, ArgsError>
    ensures made { IfOk result (VerbMakes ToolVerb.Ask (rows_of (found_of found.now))) }
    ensures none { OnWrong result (VerbMakesNone ToolVerb.Ask (rows_of (found_of found.now))) }
{
    let manifest = text_of(found, "MANIFEST")?;
    let request = text_of(found, "REQUEST")?;
    let at = second_of(found)?;
    let cells = cells_of(alloc, found)?;
    Ok(ToolCommand::Ask(AskArgs {
        manifest,
        request,
        at,
        cells,
        operator: optional_number(found, "operator"),
        why: flag_of(found, "why"),
    }))
}

// ---- the counters

/// The cells of `--cells`.
pub(crate) fn cells_of<'a>(
    alloc: Global,
    found: &ArgMatches<'a>,
) -> Result<Vec<CellAssignment<'a>>, ArgsError>
    ensures given { IfOk result (λ v. specs.HasCells (rows_of (found_of found.now)) v.items) }
    ensures lacking { OnWrong result (specs.LacksCells (rows_of (found_of found.now))) }
{
    let Ok(texts) = texts_of(alloc, found, "cells") else {
        return Err(ArgsError::Memory);
    };
    cells_in(alloc, texts.as_slice())
}

// The cells that the texts give.
fn cells_in<'a>(alloc: Global, given: &[&'a str]) -> Result<Vec<CellAssignment<'a>>, ArgsError>
    ensures given { IfOk result (λ v.
        specs.cells_in (map (λ text. text.now) given.now) ≡ Some v.items) }
    ensures lacking { OnWrong result (specs.cells_in (map (λ text. text.now) given.now) ≡ None) }
{
    let mut cells = Vec::new(alloc);
    let mut rest = given;
    while let [text, more @ ..] = rest {
        let Some(cell) = CellAssignment::assigned(text) else {
            return Err(ArgsError::Wrong(ArgumentFault::Cells));
        };
        match cells.push(cell) {
            Ok(()) => rest = more,
            Err(_) => return Err(ArgsError::Memory),
        }
    }
    Ok(cells)
}
