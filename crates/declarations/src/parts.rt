//! The parts of a text between two characters.

ghost use Rattle.std.specs.Prelude.{◌≡◌, ◌<◌, ◌==◌, IfOk, map};
ghost use Rattle.std.specs.List.{slice_split};

use std::alloc::{AllocError, Global};

/// The parts of a text between these characters: one part more than there are characters.
pub fn parts_of<'a>(alloc: Global, text: &'a str, at: char) -> Result<Vec<&'a str>, AllocError>
    requires { at < 128 }
    ensures { IfOk result (λ v. map (λ part. part.now) v.items
        ≡ slice_split (λ b. b == at) text.now) }
{
    let mut parts = Vec::new(alloc);
    for part in text.split(at) {
        parts.push(part)?;
    }
    Ok(parts)
}
