//! The text of a test, as a rule may have it.

ghost use Rattle.std.specs.Prelude.{OnOk};
ghost use Rattle.printing.specs.Pushed.{Puts};
ghost use Rattle.rule_eval.specs.TestTexts as texts;

use crate::words::{comparison_text, push_compared, push_modulus, push_numbers, push_salt};
use attrs::{Attribute, Flag};
use rule_lang::{Comparison, Test};
use std::alloc::AllocError;
use std::fmt::Write;

/// Appends the text of a test, in the rule language.
// open: whether an allocation fails.
pub fn push_test(text: &mut String, test: &Test) -> Result<(), AllocError>
    ensures { OnOk result (Puts text.old text.new (texts.test_text test.now)) }
{
    match test {
        Test::Version {
            comparison,
            version,
        } => push_version(text, *comparison, *version),
        Test::Bucket {
            salt,
            modulus,
            comparison,
            number,
        } => push_bucket(text, *salt, *modulus, *comparison, *number),
        Test::Today { comparison, number } => {
            text.push_str("today")?;
            push_compared(text, *comparison, *number)
        }
        Test::Installed { comparison, number } => {
            text.push_str("installed")?;
            push_compared(text, *comparison, *number)
        }
        Test::Flag(flag) => push_flag(text, *flag),
        Test::Attr {
            attribute,
            text: is,
        } => push_attribute(text, *attribute, is.as_str()),
        Test::Take { array, index } => push_take(text, array.as_str(), *index),
    }
}

fn push_version(
    text: &mut String,
    comparison: Comparison,
    version: [u32; 4],
) -> Result<(), AllocError>
    ensures { OnOk result (Puts text.old text.new (texts.version_test_text comparison version)) }
{
    let sign = comparison_text(comparison);
    write!(text, "version {sign} ")?;
    push_numbers(text, version)
}

fn push_bucket(
    text: &mut String,
    salt: Option<u64>,
    modulus: Option<u32>,
    comparison: Comparison,
    number: u32,
) -> Result<(), AllocError>
    ensures { OnOk result
        (Puts text.old text.new (texts.bucket_test_text salt modulus comparison number)) }
{
    text.push_str("bucket")?;
    push_salt(text, salt)?;
    push_modulus(text, modulus)?;
    push_compared(text, comparison, number)
}

fn push_flag(text: &mut String, flag: Flag) -> Result<(), AllocError>
    ensures { OnOk result (Puts text.old text.new (texts.flag_test_text flag)) }
{
    let name = flag.text();
    write!(text, "flag {name}")
}

fn push_attribute(text: &mut String, attribute: Attribute, is: &str) -> Result<(), AllocError>
    ensures { OnOk result (Puts text.old text.new (texts.attribute_test_text attribute is.now)) }
{
    let name = attribute.text();
    write!(text, "attr {name} is \"{is}\"")
}

fn push_take(text: &mut String, array: &str, index: u16) -> Result<(), AllocError>
    ensures { OnOk result (Puts text.old text.new (texts.take_text array.now index)) }
{
    write!(text, "take({array}, {index})")
}
