//! An argument or option of a command, and its form for clap.

ghost use Rattle.std.specs.Prelude.{◌≡◌, ◌∷◌, [], IfOk, false};
ghost use Rattle.clap.specs.Words.{rule_of};
ghost use Rattle.cli_base.specs.Grammar as grammar;

use crate::shared_arguments::PORTS;
use clap::builder::ValueParser;
use clap::{Arg, ArgAction};
use std::alloc::{AllocError, Global};

/// A positional argument or an option. The fields are its name; the name of its value, if an option
/// takes one; a number's limits, and its default; and its text in `--help`.
pub enum CommandArgument {
    /// A required positional argument.
    Word(&'static str, &'static str),
    /// One or more positional arguments.
    Words(&'static str, &'static str),
    /// `--NAME`.
    Flag(&'static str, &'static str),
    /// `--NAME VALUE`.
    Text(&'static str, &'static str, &'static str),
    /// `--NAME VALUE`, any number of times.
    Texts(&'static str, &'static str, &'static str),
    /// `--NAME N`, required.
    Number(&'static str, &'static str, NumberLimits, &'static str),
    /// `--NAME N`, optional.
    OptionalNumber(&'static str, &'static str, NumberLimits, &'static str),
    /// `--NAME N`, with a default.
    NumberByDefault(&'static str, &'static str, NumberLimits, &'static str, &'static str),
    /// `--operator P` or `--operator-port P`, required: the operator's port.
    Operator(&'static str),
    /// `--operator P` or `--operator-port P`, optional.
    OptionalOperator(&'static str),
}

/// The least and the greatest value of a number.
#[derive(Clone, Copy)]
pub struct NumberLimits(pub i64, pub i64);

/// The argument in clap's form.
pub fn arg_of<'a>(alloc: Global, argument: &CommandArgument) -> Result<Arg<'a>, AllocError>
    ensures rule { IfOk result (λ arg. rule_of arg ≡ grammar.rule_of_argument argument.now) }
    ensures local { IfOk result (λ arg. arg.global ≡ false) }
{
    match *argument {
        CommandArgument::Word(id, help) => Ok(word(alloc, id, ArgAction::Set, help)),
        CommandArgument::Words(id, help) => Ok(word(alloc, id, ArgAction::Append, help)),
        CommandArgument::Flag(name, help) => Ok(named(alloc, name, ArgAction::SetTrue, help)),
        CommandArgument::Text(name, value, help) => {
            Ok(option(alloc, name, value, ArgAction::Set, help))
        }
        CommandArgument::Texts(name, value, help) => {
            Ok(option(alloc, name, value, ArgAction::Append, help))
        }
        CommandArgument::Number(name, value, limits, help) => {
            Ok(number(alloc, name, value, limits, true, help))
        }
        CommandArgument::OptionalNumber(name, value, limits, help) => {
            Ok(number(alloc, name, value, limits, false, help))
        }
        CommandArgument::NumberByDefault(name, value, limits, default, help) => {
            let number = number(alloc, name, value, limits, false, help);
            Ok(number.default_value(default))
        }
        CommandArgument::Operator(help) => operator(alloc, true, help),
        CommandArgument::OptionalOperator(help) => operator(alloc, false, help),
    }
}

fn word<'a>(alloc: Global, id: &'a str, action: ArgAction, help: &'a str) -> Arg<'a>
    ensures rule { rule_of result ≡ grammar.positional id.now action }
    ensures local { result.global ≡ false }
{
    Arg::new(alloc, id).required(true).action(action).help(help)
}

// A flag or an option, by its action.
fn named<'a>(alloc: Global, name: &'a str, action: ArgAction, help: &'a str) -> Arg<'a>
    ensures rule { rule_of result ≡ grammar.named name.now action }
    ensures local { result.global ≡ false }
{
    Arg::new(alloc, name).long(name).action(action).help(help)
}

fn option<'a>(
    alloc: Global,
    name: &'a str,
    value: &'a str,
    action: ArgAction,
    help: &'a str,
) -> Arg<'a>
    ensures rule { rule_of result ≡ grammar.taking_value name.now action }
    ensures local { result.global ≡ false }
{
    named(alloc, name, action, help).value_name(value)
}

fn number<'a>(
    alloc: Global,
    name: &'a str,
    value: &'a str,
    limits: NumberLimits,
    required: bool,
    help: &'a str,
) -> Arg<'a>
    ensures rule { rule_of result ≡ grammar.limited name.now limits required [] }
    ensures local { result.global ≡ false }
{
    option(alloc, name, value, ArgAction::Set, help)
        .required(required)
        .value_parser(ValueParser::Signed(limits.0, limits.1))
}

// The operator's port of a server, by two names.
fn operator<'a>(alloc: Global, required: bool, help: &'a str) -> Result<Arg<'a>, AllocError>
    ensures rule { IfOk result (λ arg. rule_of arg ≡ grammar.operator_port required) }
    ensures local { IfOk result (λ arg. arg.global ≡ false) }
{
    number(alloc, "operator", "P", PORTS, required, help).alias("operator-port")
}
