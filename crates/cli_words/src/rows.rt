//! All commands of the program, a row each.

ghost use Rattle.std.specs.Prelude.{◌≡◌};
ghost use Rattle.cli_base.specs.Grammar.{app_of_rows, names_of};
ghost use Rattle.cli_words.specs.Grammar.{commands, names};

use crate::brake_rows::{HALT, RESUME, STATE};
use crate::program_rows::{ASSEMBLE, COMPILE, LIST, RUN, VERIFY};
use crate::server_rows::{CELLS, LOAD, REPLAY, SERVE, SHOW, STOP};
use crate::verb::Verb;
use cli_base::CommandRow;

// Each command, in the order of their names.
static ROWS: [CommandRow<Verb>; 14] = [
    ASSEMBLE, CELLS, COMPILE, HALT, LIST, LOAD, REPLAY, RESUME, RUN, SERVE, SHOW, STATE, STOP,
    VERIFY,
];

/// The row of each command, in the order of their names.
pub fn command_rows() -> &'static [CommandRow<Verb>]
    ensures grammar { app_of_rows result.now ≡ commands }
    ensures names { names_of result.now ≡ names }
{
    &ROWS
}
