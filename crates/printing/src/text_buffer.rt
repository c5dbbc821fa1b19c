//! A text that grows piece by piece. Nothing is proved of the pieces: rows compare such texts.

use crate::escaped_text::Printed;
use std::alloc::{AllocError, Global};
use std::fmt::{Display, Write};

/// The pieces appended so far. If an allocation fails, a piece is left out, and the text isn't
/// complete.
///
/// No `push_..` returns early. So a function that makes a text has one exit, and drops no text.
#[derive(Drop)]
pub struct TextBuffer {
    text: String,
    is_complete: bool,
}

impl TextBuffer {
    /// No pieces.
    pub fn new(alloc: Global) -> TextBuffer {
        TextBuffer {
            text: String::new(alloc),
            is_complete: true,
        }
    }

    /// Appends a piece.
    pub fn push(&mut self, piece: &str) {
        if self.text.push_str(piece).is_err() {
            self.is_complete = false;
        }
    }

    /// Appends pieces in their order.
    pub fn push_all(&mut self, pieces: &[&str]) {
        for piece in pieces {
            self.push(piece);
        }
    }

    /// Appends a character.
    pub fn push_char(&mut self, c: char) {
        if self.text.push(c).is_err() {
            self.is_complete = false;
        }
    }

    /// Appends a value as it is displayed.
    pub fn push_value<T: Display>(&mut self, value: &T) {
        if write!(self.text, "{value}").is_err() {
            self.is_complete = false;
        }
    }

    /// Appends a text that isn't trusted, between two pieces.
    pub fn push_printed(&mut self, before: &str, text: &str, after: &str) {
        let printed = Printed(text);
        self.push(before);
        self.push_value(&printed);
        self.push(after);
    }

    /// Appends a number between two pieces.
    pub fn push_number(&mut self, before: &str, number: u64, after: &str) {
        self.push(before);
        self.push_value(&number);
        self.push(after);
    }

    /// Leaves out a piece that couldn't be made.
    pub fn leave_out(&mut self) {
        self.is_complete = false;
    }

    /// Whether no piece is left out.
    pub fn is_complete(&self) -> bool {
        self.is_complete
    }

    /// The text, if it is complete.
    pub fn finish(self) -> Result<String, AllocError> {
        let TextBuffer { text, is_complete } = self;
        if is_complete {
            Ok(text)
        } else {
            Err(AllocError)
        }
    }
}
