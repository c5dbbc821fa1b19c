//! The reply to an `updatecheck`: the release that a choice names, or none. Each function writes
//! one object, with its members in the order of their names.

ghost use Rattle.std.specs.Prelude.{◌≡◌, map, option_copied, OnOk};
ghost use Rattle.serde_json.specs.View.{items_of};
ghost use Rattle.omaha_json.specs.Tokens.{Adds, tokens_of, item_tokens};
ghost use Rattle.omaha_json.specs.Update as specs;

use crate::tokens::{write_number, write_tokens};
use json::{Token, Writer};
use releases::{Package, Release};
use std::alloc::AllocError;

/// An object with only a status.
pub fn write_status(writer: &mut Writer, word: &str) -> Result<(), AllocError>
    ensures { OnOk result (Adds writer.old writer.new (tokens_of (specs.status_value word.now))) }
{
    write_tokens(
        writer,
        &[
            Token::BeginObject,
            Token::Key("status"),
            Token::String(word),
            Token::EndObject,
        ],
    )
}

/// The reply to an `updatecheck`: this release, or none.
pub fn write_update(writer: &mut Writer, release: Option<&Release>) -> Result<(), AllocError>
    ensures { OnOk result (Adds writer.old writer.new
        (tokens_of (specs.update_value (option_copied release.entry)))) }
{
    match release {
        Some(release) => write_offer(writer, release),
        None => write_status(writer, "noupdate"),
    }
}

/// The release that a choice names: the first is 1, and 0 none.
pub fn release_at(releases: &[Release], choice: u8) -> Option<&Release>
    ensures { option_copied result ≡ specs.release_at releases.now choice }
{
    if choice == 0 {
        return None;
    }
    releases.get(choice as usize - 1)
}

// A release to fetch.
fn write_offer(writer: &mut Writer, release: &Release) -> Result<(), AllocError>
    ensures { OnOk result (Adds writer.old writer.new
        (tokens_of (specs.update_value (Some release.now)))) }
{
    write_tokens(writer, &[Token::BeginObject, Token::Key("manifest")])?;
    write_manifest(writer, release)?;
    write_tokens(
        writer,
        &[
            Token::Key("status"),
            Token::String("ok"),
            Token::Key("urls"),
        ],
    )?;
    write_urls(writer, release.codebase())?;
    write_tokens(writer, &[Token::EndObject])?;
    Ok(())
}

// The release's version and packages.
fn write_manifest(writer: &mut Writer, release: &Release) -> Result<(), AllocError>
    ensures { OnOk result (Adds writer.old writer.new
        (tokens_of (specs.manifest_value release.now))) }
{
    write_tokens(writer, &[Token::BeginObject, Token::Key("packages")])?;
    write_packages(writer, release.packages())?;
    write_tokens(
        writer,
        &[
            Token::Key("version"),
            Token::String(release.version()),
            Token::EndObject,
        ],
    )?;
    Ok(())
}

fn write_packages(writer: &mut Writer, packages: &[Package]) -> Result<(), AllocError>
    ensures { OnOk result (Adds writer.old writer.new
        (tokens_of (specs.packages_value packages.now))) }
{
    write_tokens(
        writer,
        &[Token::BeginObject, Token::Key("package"), Token::BeginArray],
    )?;
    write_each(writer, packages)?;
    write_tokens(writer, &[Token::EndObject])?;
    Ok(())
}

// Each package, and the bracket that closes their list.
fn write_each(writer: &mut Writer, packages: &[Package]) -> Result<(), AllocError>
    ensures { OnOk result (Adds writer.old writer.new
        (item_tokens (items_of (map specs.package_value packages.now)))) }
{
    for file in packages {
        write_package(writer, file)?;
    }
    writer.end_array()
}

fn write_package(writer: &mut Writer, file: &Package) -> Result<(), AllocError>
    ensures { OnOk result (Adds writer.old writer.new (tokens_of (specs.package_value file.now))) }
{
    write_tokens(
        writer,
        &[
            Token::BeginObject,
            Token::Key("hash_sha256"),
            Token::String(file.hash_sha256()),
            Token::Key("name"),
            Token::String(file.name()),
            Token::Key("required"),
            Token::Bool(file.required()),
        ],
    )?;
    write_number(writer, "size", file.size())?;
    write_tokens(writer, &[Token::EndObject])?;
    Ok(())
}

// The address of its files.
fn write_urls(writer: &mut Writer, codebase: &str) -> Result<(), AllocError>
    ensures { OnOk result (Adds writer.old writer.new (tokens_of (specs.urls_value codebase.now))) }
{
    write_tokens(
        writer,
        &[
            Token::BeginObject,
            Token::Key("url"),
            Token::BeginArray,
            Token::BeginObject,
            Token::Key("codebase"),
            Token::String(codebase),
            Token::EndObject,
            Token::EndArray,
            Token::EndObject,
        ],
    )
}
