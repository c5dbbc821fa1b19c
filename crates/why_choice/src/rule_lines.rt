//! The lines of a rule.

ghost use Rattle.std.specs.Prelude.{◌≡◌, OnOk};
ghost use Rattle.printing.specs.Pushed.{Puts};
ghost use Rattle.why_choice.specs.RuleLines as specs;

use rule_lang::Step;
use std::alloc::AllocError;
use std::fmt::Write;

fn first_test_line(steps: &[Step]) -> usize
    ensures { result ≡ specs.first_test_line steps.now }
{
    match steps {
        [Step::Test { line, .. }, ..] => *line,
        _ => 0,
    }
}

/// Adds the line of a `when`, whose tests are reported in `report`.
pub(crate) fn push_when(text: &mut String, steps: &[Step], report: &str) -> Result<(), AllocError>
    ensures { OnOk result
        (Puts text.old text.new (specs.ended (specs.when_line steps.now report.now))) }
{
    let line = first_test_line(steps);
    writeln!(text, "  line {line}: {report}")
}

/// Adds the line for the end of a rule.
pub(crate) fn push_otherwise(text: &mut String) -> Result<(), AllocError>
    ensures { OnOk result (Puts text.old text.new (specs.ended specs.otherwise_line)) }
{
    text.push_str("  otherwise none\n")
}
