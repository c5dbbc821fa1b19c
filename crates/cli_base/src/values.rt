//! The values of arguments and options.

ghost use Rattle.std.specs.Prelude.{◌≡◌, ◌↔◌, IfNone, IfOk, IfSome};
ghost use Rattle.std.specs.Prelude.{IsTrue, OnErr, map, option_copied};
ghost use Rattle.clap.specs.Words.{first_of, found_of, rows_of};
ghost use Rattle.cli_base.specs.Values.{HasArrays, HasBucket, HasFlag, HasReleases};
ghost use Rattle.cli_base.specs.Values.{HasShape, HasShort, HasText, LacksArrays, LacksBucket};
ghost use Rattle.cli_base.specs.Values.{LacksReleases, LacksShape, LacksShort, LacksText};
ghost use Rattle.cli_base.specs.Values.{OnWrong};
ghost use Rattle.cli_base.specs.Values as values;

use crate::argument_fault::{ArgsError, ArgumentFault};
use crate::declared_shape::DeclaredShape;
use attrs::Bucket;
use cells::Shape;
use clap::ArgMatches;
use declarations::{ArrayDeclaration, SpecFault, read_spec};
use std::alloc::{AllocError, Global};

/// The 16-bit number of a required option.
pub fn number_of(found: &ArgMatches<'_>, id: &str) -> Result<u16, ArgsError>
    ensures given { IfOk result (HasShort id.now (rows_of (found_of found.now))) }
    ensures lacking { OnErr result (LacksShort id.now (rows_of (found_of found.now))) }
{
    match optional_number(found, id) {
        Some(number) => Ok(number),
        None => Err(ArgsError::Wrong(ArgumentFault::Missing)),
    }
}

/// The 16-bit number of an option, if given.
pub fn optional_number(found: &ArgMatches<'_>, id: &str) -> Option<u16>
    ensures given { IfSome result (HasShort id.now (rows_of (found_of found.now))) }
    ensures lacking { IfNone result (LacksShort id.now (rows_of (found_of found.now))) }
{
    match found.get_one::<u16>(id) {
        Some(number) => Some(number),
        None => None,
    }
}

/// The text of an argument.
pub fn text_of<'a>(found: &ArgMatches<'a>, id: &str) -> Result<&'a str, ArgsError>
    ensures given { IfOk result (λ t. HasText id.now (rows_of (found_of found.now)) t.now) }
    ensures lacking { OnErr result (LacksText id.now (rows_of (found_of found.now))) }
{
    match found.get_str(id) {
        Some(text) => Ok(text),
        None => Err(ArgsError::Wrong(ArgumentFault::Missing)),
    }
}

/// The text of an option, if given.
pub fn optional_text<'a>(found: &ArgMatches<'a>, id: &str) -> Option<&'a str>
    ensures { option_copied result ≡ first_of id.now (rows_of (found_of found.now)) }
{
    found.get_str(id)
}

/// All texts of an argument, in their order.
pub fn texts_of<'a>(
    alloc: Global,
    found: &ArgMatches<'a>,
    id: &str,
) -> Result<Vec<&'a str>, AllocError>
    ensures { IfOk result (λ texts. map (λ text. text.now) texts.items
        ≡ values.texts_of id.now (rows_of (found_of found.now))) }
{
    match found.get_strs(id) {
        Some(texts) => Vec::from_slice(alloc, texts),
        None => Ok(Vec::new(alloc)),
    }
}

/// Whether an argument was given this text.
pub fn is_text(found: &ArgMatches<'_>, id: &str, text: &str) -> bool
    ensures { IsTrue result ↔ HasText id.now (rows_of (found_of found.now)) text.now }
{
    match optional_text(found, id) {
        Some(given) => given == text,
        None => false,
    }
}

/// Whether a flag is given.
pub fn flag_of(found: &ArgMatches<'_>, id: &str) -> bool
    ensures { HasFlag id.now (rows_of (found_of found.now)) result }
{
    found.get_flag(id)
}

/// The shape that the options declare.
pub fn shape_of(alloc: Global, found: &ArgMatches<'_>) -> Result<DeclaredShape, ArgsError>
    ensures given { IfOk result (HasShape (rows_of (found_of found.now))) }
    ensures lacking { OnWrong result (LacksShape (rows_of (found_of found.now))) }
{
    let Some(releases) = releases_of(found) else {
        return Err(ArgsError::Wrong(ArgumentFault::Missing));
    };
    let arrays = arrays_of(alloc, found)?;
    Ok(DeclaredShape { releases, arrays })
}

fn releases_of(found: &ArgMatches<'_>) -> Option<u8>
    ensures given { IfSome result (HasReleases (rows_of (found_of found.now))) }
    ensures lacking { IfNone result (LacksReleases (rows_of (found_of found.now))) }
{
    match found.get_one::<u8>("releases") {
        Some(releases) if releases <= Shape::MOST_RELEASES => Some(releases),
        _ => None,
    }
}

// The arrays that an option declares; no arrays without it.
fn arrays_of(alloc: Global, found: &ArgMatches<'_>) -> Result<Vec<ArrayDeclaration>, ArgsError>
    ensures given { IfOk result (λ v. HasArrays (rows_of (found_of found.now)) v.items) }
    ensures lacking { OnWrong result (LacksArrays (rows_of (found_of found.now))) }
{
    let Some(text) = found.get_str("arrays") else {
        return Ok(Vec::new(alloc));
    };
    match read_spec(alloc, text) {
        Ok(arrays) => Ok(arrays),
        Err(SpecFault::Malformed) => Err(ArgsError::Wrong(ArgumentFault::Arrays)),
        Err(SpecFault::Memory) => Err(ArgsError::Memory),
    }
}

/// The bucket of an option.
pub fn bucket_of(found: &ArgMatches<'_>) -> Result<Bucket, ArgsError>
    ensures given { IfOk result (HasBucket (rows_of (found_of found.now))) }
    ensures lacking { OnErr result (LacksBucket (rows_of (found_of found.now))) }
{
    match found.get_one::<u16>("bucket") {
        Some(number) if number < Bucket::COUNT => Ok(Bucket::new(number)),
        _ => Err(ArgsError::Wrong(ArgumentFault::Missing)),
    }
}
