//! The lines of a server's state: its generation, what it was loaded with last, and which apps are
//! halted.

ghost use Rattle.std.specs.Prelude.{◌≡◌, ◌++◌, IfOk, OnOk, flat_map, map, string_bytes};
ghost use Rattle.operator.specs.Texts.{digest_line, halted_line, load_text, loaded_line};
ghost use Rattle.operator.specs.Texts.{origin_line, state_text};

use crate::control::Control;
use crate::last_load::LastLoad;
use hex::encode;
use printing::Printed;
use std::alloc::{AllocError, Global};
use std::fmt::Write;

/// The generation, the digest, time and path of the last load, a line for each halted app, and
/// `end`, which shows that no line is missing.
// open: whether an allocation fails.
pub fn state_lines(alloc: Global, control: &Control) -> Result<String, AllocError>
    ensures { IfOk result (λ text. string_bytes text ≡ state_text control.now) }
{
    let generation = control.generation();
    let mut text = format!(in alloc; "generation {generation}\n")?;
    push_load(alloc, &mut text, control.last())?;
    push_halted(&mut text, control.halted())?;
    text.push_str("end\n")?;
    Ok(text)
}

// Appends the lines of a load.
fn push_load(alloc: Global, text: &mut String, load: &LastLoad) -> Result<(), AllocError>
    ensures { OnOk result (string_bytes text.new ≡ string_bytes text.old ++ load_text load.now) }
{
    push_digest(alloc, text, load.digest)?;
    push_origin(alloc, text, load)
}

fn push_digest(alloc: Global, text: &mut String, digest: [u8; 32]) -> Result<(), AllocError>
    ensures { OnOk result (string_bytes text.new ≡ string_bytes text.old ++ digest_line digest) }
{
    let digest = encode(alloc, digest)?;
    writeln!(text, "digest {digest}")
}

// Appends when a load was made, and from where.
fn push_origin(alloc: Global, text: &mut String, load: &LastLoad) -> Result<(), AllocError>
    ensures { OnOk result (string_bytes text.new ≡ string_bytes text.old ++ origin_line load.now) }
{
    let time = load.time.written(alloc)?;
    push_place(text, time.as_str(), load.path.as_str())
}

fn push_place(text: &mut String, time: &str, path: &str) -> Result<(), AllocError>
    ensures { OnOk result
        (string_bytes text.new ≡ string_bytes text.old ++ loaded_line time.now path.now) }
{
    let path = Printed(path);
    writeln!(text, "loaded {time} {path}")
}

// Appends a line for each halted app.
fn push_halted(text: &mut String, halted: &[String]) -> Result<(), AllocError>
    ensures { OnOk result (string_bytes text.new
        ≡ string_bytes text.old ++ flat_map halted_line (map string_bytes halted.now)) }
{
    let mut left = halted;
    while let [appid, others @ ..] = left {
        writeln!(text, "halted {appid}")?;
        left = others;
    }
    Ok(())
}
