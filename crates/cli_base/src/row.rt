//! A table of commands, a row each.

ghost use Rattle.std.specs.Prelude.{◌≡◌, option_map};
ghost use Rattle.std.specs.Str.{bytes_eq};
ghost use Rattle.clap.specs.Words.{found_of, rows_of, subcommand_rows_of};
ghost use Rattle.cli_base.specs.Grammar as specs;

use crate::argument::CommandArgument;
use clap::ArgMatches;

/// A command `verb` of a program: its name, what it does in one line, its arguments, and the text
/// that `--help` prints after these.
#[derive(Clone, Copy)]
pub struct CommandRow<V> {
    pub verb: V,
    pub name: &'static str,
    pub about: &'static str,
    pub end: Option<&'static str>,
    pub arguments: &'static [CommandArgument],
}

/// The command of the matches, with what its arguments were given. `None` without a command of the
/// table.
pub fn command_found<'m, 'a, V: Copy>(
    rows: &[CommandRow<V>],
    matches: &'m ArgMatches<'a>,
) -> Option<(V, &'m ArgMatches<'a>)>
    ensures { option_map (λ f. (f.0, rows_of (found_of f.1.now))) result
        ≡ specs.verb_of (specs.names_of rows.now) (subcommand_rows_of matches.now) }
{
    let (name, found) = matches.subcommand()?;
    let verb = verb_named(rows, name)?;
    Some((verb, found))
}

// The command with a name: that of the first such row.
fn verb_named<V: Copy>(rows: &[CommandRow<V>], name: &str) -> Option<V>
    ensures { result ≡ specs.verb_in name.now (specs.names_of rows.now) }
{
    let mut left = rows;
    while let [row, rest @ ..] = left {
        if is_named(row, name) {
            return Some(row.verb);
        }
        left = rest;
    }
    None
}

fn is_named<V>(row: &CommandRow<V>, name: &str) -> bool
    ensures { result ≡ bytes_eq name.now row.now.name.now }
{
    name == row.name
}
