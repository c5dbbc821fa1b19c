//! The smaller parts of a test's text: comparisons, numbers of a version, salts.

ghost use Rattle.std.specs.Prelude.{◌≡◌, OnOk};
ghost use Rattle.printing.specs.Pushed.{Puts};
ghost use Rattle.rule_eval.specs.TestTexts as texts;

use rule_lang::Comparison;
use std::alloc::AllocError;
use std::fmt::Write;

/// A comparison, as a rule has it.
pub(crate) fn comparison_text(comparison: Comparison) -> &'static str
    ensures { result.now ≡ texts.comparison_text comparison }
{
    match comparison {
        Comparison::Lt => "<",
        Comparison::Le => "<=",
        Comparison::Eq => "==",
        Comparison::Ne => "!=",
        Comparison::Ge => ">=",
        Comparison::Gt => ">",
    }
}

/// Adds a comparison with a number.
pub(crate) fn push_compared(
    text: &mut String,
    comparison: Comparison,
    number: u32,
) -> Result<(), AllocError>
    ensures { OnOk result (Puts text.old text.new (texts.compared_text comparison number)) }
{
    let sign = comparison_text(comparison);
    write!(text, " {sign} {number}")
}

/// Adds a version: its first two numbers, and the others up to the last that isn't 0.
// open: whether an allocation fails.
pub fn push_numbers(text: &mut String, version: [u32; 4]) -> Result<(), AllocError>
    ensures { OnOk result (Puts text.old text.new (texts.numbers_text version)) }
{
    let [first, second, third, fourth] = version;
    write!(text, "{first}.{second}")?;
    push_third(text, third, fourth)
}

fn push_third(text: &mut String, third: u32, fourth: u32) -> Result<(), AllocError>
    ensures { OnOk result (Puts text.old text.new (texts.third_text third fourth)) }
{
    if third == 0 && fourth == 0 {
        return Ok(());
    }
    write!(text, ".{third}")?;
    push_fourth(text, fourth)
}

fn push_fourth(text: &mut String, fourth: u32) -> Result<(), AllocError>
    ensures { OnOk result (Puts text.old text.new (texts.fourth_text fourth)) }
{
    if fourth == 0 {
        return Ok(());
    }
    write!(text, ".{fourth}")
}

/// Adds a bucket's salt, if there is one.
pub(crate) fn push_salt(text: &mut String, salt: Option<u64>) -> Result<(), AllocError>
    ensures { OnOk result (Puts text.old text.new (texts.salt_text salt)) }
{
    match salt {
        Some(salt) => write!(text, "({salt})"),
        None => Ok(()),
    }
}

/// Adds a bucket's modulus, if there is one.
pub(crate) fn push_modulus(text: &mut String, modulus: Option<u32>) -> Result<(), AllocError>
    ensures { OnOk result (Puts text.old text.new (texts.modulus_text modulus)) }
{
    match modulus {
        Some(modulus) => write!(text, " mod {modulus}"),
        None => Ok(()),
    }
}
