//! Buffers for a request and its reply, so that a worker thread can reuse them.

use crate::covered_text::CoveredText;
use crate::rejection::Rejection;
use http_front::PostBuffers;
use std::alloc::Global;
use std::mem;

/// The largest buffer of a reply that is kept for the next one: enough for 256 apps, each of which
/// is offered a release of sixteen packages.
const KEPT_TEXT: usize = 1_048_576;

/// Buffers for the head and the body of a request and for the text of a reply. They grow as
/// requests need them. A body's buffer over 65,536 bytes and a text's over 1,048,576 aren't kept
/// for the next request. No reply depends on their earlier contents.
#[derive(Drop)]
pub struct AnswerBuffers {
    pub(crate) post: PostBuffers,
    text: Vec<u8>,
}

impl AnswerBuffers {
    /// Empty buffers, without an allocation.
    pub fn new(alloc: Global) -> AnswerBuffers {
        AnswerBuffers {
            post: PostBuffers::new(alloc),
            text: Vec::new(alloc),
        }
    }

    /// Takes out the buffer of a text, until `keep` returns it.
    pub(crate) fn take_text(&mut self, alloc: Global) -> Vec<u8> {
        mem::replace(&mut self.text, Vec::new(alloc))
    }

    /// Keeps the buffer of a text that was sent.
    pub(crate) fn keep<T: Drop>(&mut self, outcome: Result<CoveredText<T>, Rejection>) {
        if let Ok(
            CoveredText {
                text,
                receipt: _receipt,
            },
        ) = outcome
        {
            if text.capacity() <= KEPT_TEXT {
                self.text = text;
            }
        }
    }
}
