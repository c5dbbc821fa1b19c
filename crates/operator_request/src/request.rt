//! `load PATH`, `show`, `cells`, `stop`, `halt APPID`, `resume APPID` and `state`. Any other line
//! is refused as B1.

ghost use Rattle.std.specs.Prelude.{◌≡◌, ◌↔◌, IfOk, IfSome, IfNone, IsTrue, string_bytes};
ghost use Rattle.operator_request.specs.Requests.{IsArgument, IsSendable, request_words};
ghost use Rattle.operator_request.specs.Requests.{SpellsNoRequest, SpellsRequest};
ghost use Rattle.operator_request.specs.Requests.{HasArgument, HasNoArgument};

use std::alloc::{AllocError, Global};
use std::str;

/// The most bytes of a line, without the line feed that ends it.
pub const LINE_LIMIT: usize = 4096;

/// The most bytes of a path, so that `load PATH` is a line; and of an appid, for `halt APPID`.
const PATH_LIMIT: usize = LINE_LIMIT - 5;

/// The most bytes of an appid, so that `resume APPID` is a line.
const RESUMED_LIMIT: usize = LINE_LIMIT - 7;

/// A request at a server's operator's port.
#[derive(Clone, Copy, PartialEq, Eq)]
pub enum OperatorRequest<'a> {
    /// `load PATH`: install the ruleset of the manifest at this path in the server's file system.
    Load(&'a str),
    /// `show`: reply with the generation and the apps.
    Show,
    /// `cells`: reply with the counters that aren't 0.
    Cells,
    /// `stop`: end the server.
    Stop,
    /// `halt APPID`: offer no release of the app, whatever is loaded, until it is resumed.
    Halt(&'a str),
    /// `resume APPID`: serve the app by its program again.
    Resume(&'a str),
    /// `state`: reply with the generation, the load that is served, and the halted apps.
    State,
}

impl<'a> OperatorRequest<'a> {
    /// The request of a line, which is passed without its line feed. Returns `None` if the line has
    /// more than 4096 bytes or a line feed, or isn't one of the words. Also for `load`, `halt` and
    /// `resume` without an argument, or with one that isn't UTF-8.
    // open: whether an allocation fails.
    pub fn of(line: &'a [u8]) -> Option<OperatorRequest<'a>>
        ensures some { IfSome result (SpellsRequest line.now) }
        ensures none { IfNone result (SpellsNoRequest line.now) }
    {
        if line.len() > LINE_LIMIT || line.contains(&b'\n') {
            return None;
        }
        if line == b"show".as_slice() {
            return Some(OperatorRequest::Show);
        }
        if line == b"cells".as_slice() {
            return Some(OperatorRequest::Cells);
        }
        if line == b"stop".as_slice() {
            return Some(OperatorRequest::Stop);
        }
        if line == b"state".as_slice() {
            return Some(OperatorRequest::State);
        }
        if let Some(path) = argument(line, b"load ") {
            return Some(OperatorRequest::Load(path));
        }
        if let Some(appid) = argument(line, b"halt ") {
            return Some(OperatorRequest::Halt(appid));
        }
        if let Some(appid) = argument(line, b"resume ") {
            return Some(OperatorRequest::Resume(appid));
        }
        None
    }

    /// Whether a line spells it: whether its argument, if it has one, isn't empty, has no line
    /// feed, and fits into a line. A path may have 4091 bytes, and so may a halted appid; a resumed
    /// one 4089.
    pub fn is_sendable(self) -> bool
        ensures { IsTrue result ↔ IsSendable self.entry }
    {
        match self {
            OperatorRequest::Load(path) => is_argument(path, PATH_LIMIT),
            OperatorRequest::Halt(appid) => is_argument(appid, PATH_LIMIT),
            OperatorRequest::Resume(appid) => is_argument(appid, RESUMED_LIMIT),
            OperatorRequest::Show
            | OperatorRequest::Cells
            | OperatorRequest::Stop
            | OperatorRequest::State => true,
        }
    }

    /// The words of its line, without the line feed.
    // open: whether an allocation fails.
    pub fn words(self, alloc: Global) -> Result<String, AllocError>
        ensures { IfOk result (λ words. string_bytes words ≡ request_words self.entry) }
    {
        match self {
            OperatorRequest::Load(path) => format!(in alloc; "load {path}"),
            OperatorRequest::Show => String::from_str(alloc, "show"),
            OperatorRequest::Cells => String::from_str(alloc, "cells"),
            OperatorRequest::Stop => String::from_str(alloc, "stop"),
            OperatorRequest::Halt(appid) => format!(in alloc; "halt {appid}"),
            OperatorRequest::Resume(appid) => format!(in alloc; "resume {appid}"),
            OperatorRequest::State => String::from_str(alloc, "state"),
        }
    }
}

// What follows a word in a line, if it is a text that isn't empty.
fn argument<'a>(line: &'a [u8], word: &[u8]) -> Option<&'a str>
    ensures some { IfSome result (λ text. HasArgument word.now text.now line.now) }
    ensures none { IfNone result (HasNoArgument word.now line.now) }
{
    let Some(text) = line.strip_prefix(word) else {
        return None;
    };
    match str::from_utf8(text) {
        Ok(text) if !text.is_empty() => Some(text),
        _ => None,
    }
}

// Whether a word and this text are a line, if the text may have at most this many bytes.
fn is_argument(text: &str, limit: usize) -> bool
    ensures { IsTrue result ↔ IsArgument limit text.now }
{
    !text.is_empty() && text.len() <= limit && !text.as_bytes().contains(&b'\n')
}
