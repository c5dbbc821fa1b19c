//! Tokens of JSON, written one after another.

ghost use Rattle.std.specs.Prelude.{[], ◌∷◌, map, decimal, OnOk};
ghost use Rattle.json.specs.Token.{key, number};
ghost use Rattle.json.specs.Reads.{token_of};
ghost use Rattle.omaha_json.specs.Tokens.{Adds, AreWritable};

use json::{Token, Writer};
use std::alloc::AllocError;

/// Writes these tokens, in their order.
pub fn write_tokens(writer: &mut Writer, tokens: &[Token<'_>]) -> Result<(), AllocError>
    requires { AreWritable (map token_of tokens.now) }
    ensures { OnOk result (Adds writer.old writer.new (map token_of tokens.now)) }
{
    for token in tokens {
        writer.token(*token)?;
    }
    Ok(())
}

/// Writes a member that is a number.
pub fn write_number(writer: &mut Writer, name: &str, value: u64) -> Result<(), AllocError>
    ensures { OnOk result (Adds writer.old writer.new
        (key name.now ∷ number (decimal value) ∷ [])) }
{
    writer.key(name)?;
    writer.u64(value)
}
