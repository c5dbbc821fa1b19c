//! The reply of a server to `state`, by its lines.

ghost use Rattle.std.specs.Prelude.{◌≡◌, IfOk, IfSome, Some, codes};
ghost use Rattle.std.specs.Str.Lines.{lines};
ghost use Rattle.server_replies.specs.Replies as specs;

use server_replies::{first_after, lines_of, text_after};
use std::alloc::{AllocError, Global};

/// What a server says that it serves.
#[derive(Clone, Copy)]
pub(crate) struct ServerState<'a> {
    /// The digest of the manifest of its last load, and of its files, in hexadecimal digits.
    pub(crate) digest: &'a str,
    /// The time and the path of that load.
    pub(crate) loaded: &'a str,
}

/// The state in a reply; None if it hasn't its lines.
pub(crate) fn state_in<'a>(
    alloc: Global,
    reply: &'a str,
) -> Result<Option<ServerState<'a>>, AllocError>
    ensures { IfOk result (λ found. IfSome found (λ state.
        Some state.digest.now ≡ specs.first_after (codes "digest") (lines reply.now))) }
{
    let lines = lines_of(alloc, reply)?;
    let digest = first_after("digest", &lines);
    let loaded = first_after("loaded", &lines);
    match (digest, loaded) {
        (Some(digest), Some(loaded)) => Ok(Some(ServerState { digest, loaded })),
        (Some(_), None) => Ok(None),
        (None, _) => Ok(None),
    }
}

/// The apps that a server halts by its own word, by its reply.
pub(crate) fn halted_in(alloc: Global, reply: &str) -> Result<Vec<String>, AllocError> {
    let mut halted = Vec::new(alloc);
    for line in reply.lines() {
        if let Some(appid) = text_after("halted", line) {
            halted.push(String::from_str(alloc, appid)?)?;
        }
    }
    Ok(halted)
}

/// The bytes of a digest; None if it hasn't 64 hexadecimal digits.
pub(crate) fn digest_bytes(digits: &str) -> Option<[u8; 32]> {
    let mut bytes = [0; 32];
    match hex::decode_to_slice(digits.as_bytes(), &mut bytes) {
        Ok(()) => Some(bytes),
        Err(_) => None,
    }
}
