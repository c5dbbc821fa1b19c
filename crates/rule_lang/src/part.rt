//! The values of a phrase's tokens: numbers within their limits, and known names.

ghost use Rattle.std.specs.Prelude.{◌≡◌};
ghost use Rattle.rule_lang.specs.Named.{token_named, placed_named, placed_all, array_given};
ghost use Rattle.rule_lang.specs.Parts as parts;

use crate::fits::array_named;
use crate::keyword::Keyword;
use crate::lexer::Placed;
use crate::rule_fault::{RuleFault, RuleFaultKind};
use crate::test::Comparison;
use crate::token::Token;
use attrs::{Attribute, Flag, attribute_named, flag_named, read_version};
use cells::{CellArray, Shape};
use lexing::magnitude;

/// The token at `place` in a phrase.
pub fn part<'a>(tokens: &[Placed<&'a str>], place: usize) -> Placed<&'a str>
    ensures { placed_named result ≡ parts.part (placed_all tokens.now) place }
{
    match tokens.get(place) {
        Some(placed) => *placed,
        None => Placed {
            line: 0,
            token: Token::End,
        },
    }
}

/// The text of a name, a number or a literal.
pub fn text_of<'a>(token: Token<&'a str>) -> &'a str
    ensures { result.now ≡ parts.text_of (token_named token.entry) }
{
    match token {
        Token::Name(text) | Token::Number(text) | Token::Version(text) | Token::Text(text) => text,
        _ => "",
    }
}

/// The comparison of a token.
pub fn comparison<'a>(placed: Placed<&'a str>) -> Comparison
    ensures { result ≡ parts.comparison (placed_named placed.entry) }
{
    match placed.token {
        Token::Comparison(comparison) => comparison,
        _ => Comparison::Eq,
    }
}

/// The fault of an unknown name.
pub fn unknown<'a>(placed: Placed<&'a str>) -> RuleFault
    ensures { result ≡ parts.unknown (placed_named placed.entry) }
{
    RuleFault::At {
        line: placed.line,
        kind: RuleFaultKind::Name,
    }
}

/// The fault of a value out of range.
pub fn out_of_range<'a>(placed: Placed<&'a str>) -> RuleFault
    ensures { result ≡ parts.out_of_range (placed_named placed.entry) }
{
    RuleFault::At {
        line: placed.line,
        kind: RuleFaultKind::Range,
    }
}

/// A number up to 2^64 - 1.
pub fn salt<'a>(placed: Placed<&'a str>) -> Result<u64, RuleFault>
    ensures { result ≡ parts.salt (placed_named placed.entry) }
{
    let text = text_of(placed.token);
    magnitude(10, text.as_bytes()).ok_or(out_of_range(placed))
}

/// A number up to 4294967295.
pub fn number<'a>(placed: Placed<&'a str>) -> Result<u32, RuleFault>
    ensures { result ≡ parts.number (placed_named placed.entry) }
{
    let number = salt(placed)?;
    if number <= 0xffff_ffff {
        Ok(number as u32)
    } else {
        Err(out_of_range(placed))
    }
}

/// A number of at least 1.
pub fn modulus<'a>(placed: Placed<&'a str>) -> Result<u32, RuleFault>
    ensures { result ≡ parts.modulus (placed_named placed.entry) }
{
    let number = number(placed)?;
    if 1 <= number {
        Ok(number)
    } else {
        Err(out_of_range(placed))
    }
}

/// The four numbers of a version.
pub fn version<'a>(placed: Placed<&'a str>) -> Result<[u32; 4], RuleFault>
    ensures { result ≡ parts.version (placed_named placed.entry) }
{
    read_version(text_of(placed.token)).ok_or(out_of_range(placed))
}

/// The flag with this name.
pub fn flag<'a>(placed: Placed<&'a str>) -> Result<Flag, RuleFault>
    ensures { result ≡ parts.flag (placed_named placed.entry) }
{
    flag_named(text_of(placed.token)).ok_or(unknown(placed))
}

/// The attribute with this name, which may be the word `version`.
pub fn attribute<'a>(placed: Placed<&'a str>) -> Result<Attribute, RuleFault>
    ensures { result ≡ parts.attribute (placed_named placed.entry) }
{
    match placed.token {
        Token::Keyword(Keyword::Version) => Ok(Attribute::Version),
        token => attribute_named(text_of(token)).ok_or(unknown(placed)),
    }
}

/// A release of the shape.
pub fn release<'a>(shape: &Shape, placed: Placed<&'a str>) -> Result<u8, RuleFault>
    ensures { result ≡ parts.release shape.now (placed_named placed.entry) }
{
    let number = number(placed)?;
    if 1 <= number && number <= u32::from(shape.releases()) {
        Ok(number as u8)
    } else {
        Err(out_of_range(placed))
    }
}

/// The array with this name, which must have a quota if `quota` is set, and none otherwise.
pub fn array<'s, 'a>(
    shape: &'s Shape,
    quota: bool,
    placed: Placed<&'a str>,
) -> Result<&'s CellArray, RuleFault>
    ensures { array_given result ≡ parts.array shape.now quota (placed_named placed.entry) }
{
    match array_named(shape.arrays(), text_of(placed.token)) {
        Some(array) if array.quota.is_some() == quota => Ok(array),
        _ => Err(unknown(placed)),
    }
}

/// An index into the array.
pub fn index<'a>(array: &CellArray, placed: Placed<&'a str>) -> Result<u16, RuleFault>
    ensures { result ≡ parts.index array.now (placed_named placed.entry) }
{
    let number = number(placed)?;
    if number < u32::from(array.length) {
        Ok(number as u16)
    } else {
        Err(out_of_range(placed))
    }
}
