//! From the phrase of a test to the test.

ghost use Rattle.std.specs.Prelude.{◌≡◌, ◌≤◌, ◌+◌, IfOk, IfErr, Ok};
ghost use Rattle.rule_lang.specs.Named.{placed_named, placed_all};
ghost use Rattle.rule_lang.specs.Parts as parts;
ghost use Rattle.rule_lang.specs.Reader.Results.{IsFaultOf};
ghost use Rattle.rule_lang.specs.Tests as tests;

use crate::lexer::Placed;
use crate::literal::Literal;
use crate::part::{
    array, attribute, comparison, flag, index, modulus, number, out_of_range, part, salt, text_of,
    version,
};
use crate::phrase::{Want, takes};
use crate::rule_fault::RuleFault;
use crate::test::Test;
use crate::test_table::TestKind;
use cells::{ArrayName, Shape};
use std::alloc::Global;

fn version_test<'a>(tokens: &[Placed<&'a str>]) -> Result<Test, RuleFault>
    ensures { result ≡ tests.version_test (placed_all tokens.now) }
{
    let version = version(part(tokens, 2))?;
    let comparison = comparison(part(tokens, 1));
    Ok(Test::Version {
        comparison,
        version,
    })
}

// Whether an optional part begins at this place.
fn begins<'a>(want: Want, tokens: &[Placed<&'a str>], place: usize) -> bool
    ensures { result ≡ tests.begins want (placed_all tokens.now) place }
{
    takes(want, part(tokens, place).token)
}

// The place after a part of `size` tokens, if the part is present.
fn past(there: bool, size: usize, place: usize) -> usize
    requires { place + size ≤ 16 }
    ensures { result ≡ tests.past there size place }
{
    if there { place + size } else { place }
}

fn optional_salt<'a>(there: bool, placed: Placed<&'a str>) -> Result<Option<u64>, RuleFault>
    ensures { result ≡ tests.optional there (parts.salt (placed_named placed.entry)) }
{
    if there {
        Ok(Some(salt(placed)?))
    } else {
        Ok(None)
    }
}

fn optional_modulus<'a>(there: bool, placed: Placed<&'a str>) -> Result<Option<u32>, RuleFault>
    ensures { result ≡ tests.optional there (parts.modulus (placed_named placed.entry)) }
{
    if there {
        Ok(Some(modulus(placed)?))
    } else {
        Ok(None)
    }
}

fn bucket_test<'a>(tokens: &[Placed<&'a str>]) -> Result<Test, RuleFault>
    ensures { result ≡ tests.bucket_test (placed_all tokens.now) }
{
    let salted = begins(Want::Salt, tokens, 1);
    let after_salt = past(salted, 3, 1);
    let divided = begins(Want::Modulus, tokens, after_salt);
    let after_modulus = past(divided, 2, after_salt);
    let salt = optional_salt(salted, part(tokens, 2))?;
    let modulus = optional_modulus(divided, part(tokens, after_salt + 1))?;
    let number = number(part(tokens, after_modulus + 1))?;
    let comparison = comparison(part(tokens, after_modulus));
    Ok(Test::Bucket {
        salt,
        modulus,
        comparison,
        number,
    })
}

fn today_test<'a>(tokens: &[Placed<&'a str>]) -> Result<Test, RuleFault>
    ensures { result ≡ tests.today_test (placed_all tokens.now) }
{
    let number = number(part(tokens, 2))?;
    let comparison = comparison(part(tokens, 1));
    Ok(Test::Today { comparison, number })
}

fn installed_test<'a>(tokens: &[Placed<&'a str>]) -> Result<Test, RuleFault>
    ensures { result ≡ tests.installed_test (placed_all tokens.now) }
{
    let number = number(part(tokens, 2))?;
    let comparison = comparison(part(tokens, 1));
    Ok(Test::Installed { comparison, number })
}

fn flag_test<'a>(tokens: &[Placed<&'a str>]) -> Result<Test, RuleFault>
    ensures { result ≡ tests.flag_test (placed_all tokens.now) }
{
    Ok(Test::Flag(flag(part(tokens, 1))?))
}

fn literal<'a>(alloc: Global, placed: Placed<&'a str>) -> Result<Literal, RuleFault>
    ensures literal { IfOk result (λ l. tests.literal (placed_named placed.entry) ≡ Ok l) }
    ensures fault { IfErr result (IsFaultOf (tests.literal (placed_named placed.entry))) }
{
    let text = text_of(placed.token);
    if Literal::is_literal(text) {
        Ok(Literal::of(alloc, text)?)
    } else {
        Err(out_of_range(placed))
    }
}

fn attr_test<'a>(alloc: Global, tokens: &[Placed<&'a str>]) -> Result<Test, RuleFault>
    ensures test { IfOk result (λ t. tests.attr_test (placed_all tokens.now) ≡ Ok t) }
    ensures fault { IfErr result (IsFaultOf (tests.attr_test (placed_all tokens.now))) }
{
    let attribute = attribute(part(tokens, 1))?;
    let text = literal(alloc, part(tokens, 3))?;
    Ok(Test::Attr { attribute, text })
}

fn take_test<'a>(
    alloc: Global,
    shape: &Shape,
    tokens: &[Placed<&'a str>],
) -> Result<Test, RuleFault>
    ensures test { IfOk result (λ t. tests.take_test shape.now (placed_all tokens.now) ≡ Ok t) }
    ensures fault { IfErr result (IsFaultOf (tests.take_test shape.now (placed_all tokens.now))) }
{
    let array = array(shape, true, part(tokens, 2))?;
    let index = index(array, part(tokens, 4))?;
    let array = ArrayName::of(alloc, array.name.as_str())?;
    Ok(Test::Take { array, index })
}

/// The test that a phrase of this kind spells, or the first L3 or L4 of its parts.
pub fn test_of<'a>(
    alloc: Global,
    shape: &Shape,
    kind: TestKind,
    tokens: &[Placed<&'a str>],
) -> Result<Test, RuleFault>
    ensures test { IfOk result (λ t. (tests.row kind).spelled shape.now (placed_all tokens.now)
        ≡ Ok t) }
    ensures fault { IfErr result (IsFaultOf ((tests.row kind).spelled shape.now (placed_all
        tokens.now))) }
{
    match kind {
        TestKind::Version => version_test(tokens),
        TestKind::Bucket => bucket_test(tokens),
        TestKind::Today => today_test(tokens),
        TestKind::Installed => installed_test(tokens),
        TestKind::Flag => flag_test(tokens),
        TestKind::Attr => attr_test(alloc, tokens),
        TestKind::Take => take_test(alloc, shape, tokens),
    }
}
