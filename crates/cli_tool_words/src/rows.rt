//! The table of the commands of `rollout-tools`.

ghost use Rattle.std.specs.Prelude.{◌≡◌};
ghost use Rattle.cli_base.specs.Grammar.{app_of_rows, names_of};
ghost use Rattle.cli_tool_words.specs.Tools as specs;

use crate::manifest_rows::{ASK, CHECK, DIFF, SIMULATE, STAGE, WHY};
use crate::program_rows::{COMPLETION, EXPLAIN, ORDER, REPORT, TRACE};
use crate::verb::ToolVerb;
use cli_base::CommandRow;

/// The row of each command, in the order of their names.
pub fn tool_rows() -> [CommandRow<ToolVerb>; 11]
    ensures grammar { app_of_rows result ≡ specs.tools }
    ensures names { names_of result ≡ specs.names }
{
    [
        ask(),
        check(),
        completion(),
        diff(),
        explain(),
        order(),
        report(),
        simulate(),
        stage(),
        trace(),
        why(),
    ]
}

// ---- one row

fn ask() -> CommandRow<ToolVerb>
    ensures { specs.rules_of_row result ≡ specs.ask }
{
    ASK
}

fn check() -> CommandRow<ToolVerb>
    ensures { specs.rules_of_row result ≡ specs.check }
{
    CHECK
}

fn completion() -> CommandRow<ToolVerb>
    ensures { specs.rules_of_row result ≡ specs.completion }
{
    COMPLETION
}

fn diff() -> CommandRow<ToolVerb>
    ensures { specs.rules_of_row result ≡ specs.diff }
{
    DIFF
}

fn explain() -> CommandRow<ToolVerb>
    ensures { specs.rules_of_row result ≡ specs.explain }
{
    EXPLAIN
}

fn order() -> CommandRow<ToolVerb>
    ensures { specs.rules_of_row result ≡ specs.order }
{
    ORDER
}

fn report() -> CommandRow<ToolVerb>
    ensures { specs.rules_of_row result ≡ specs.report }
{
    REPORT
}

fn simulate() -> CommandRow<ToolVerb>
    ensures { specs.rules_of_row result ≡ specs.simulate }
{
    SIMULATE
}

fn stage() -> CommandRow<ToolVerb>
    ensures { specs.rules_of_row result ≡ specs.stage }
{
    STAGE
}

fn trace() -> CommandRow<ToolVerb>
    ensures { specs.rules_of_row result ≡ specs.trace }
{
    TRACE
}

fn why() -> CommandRow<ToolVerb>
    ensures { specs.rules_of_row result ≡ specs.why }
{
    WHY
}
