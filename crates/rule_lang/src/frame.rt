//! The open parentheses and operators of a condition.

ghost use Rattle.std.specs.Prelude.{◌≡◌, [], ◌∷◌, OnOk};
ghost use Rattle.rule_lang.specs.Reader.Drafts as drafts;

use std::alloc::{AllocError, Global};
use std::marker::Model;

/// The state of a condition at the current token: how many `not`s precede the next fact; whether
/// the fact is the right side of an `and`; whether its term is the right side of an `or`.
#[derive(Clone, Copy)]
pub struct Frame {
    pub nots: u8,
    pub and: bool,
    pub or: bool,
}

/// The conditions around the current one, the innermost first.
#[derive(Drop)]
pub struct Frames {
    frames: Vec<Frame>,
}

impl Model for Frames {
    ghost use Rattle.std.specs.Prelude.{List, reverse};
    ghost use Rattle.rule_lang.specs.declared.frame.Frame.{Frame};

    ghost Value = { List Frame };

    ghost view = { λ f. reverse f.frames.items };
}

impl Frames {
    /// No frames.
    pub fn new(alloc: Global) -> Frames
        ensures { result ≡ [] }
    {
        Frames {
            frames: Vec::new(alloc),
        }
    }

    /// Adds a frame inside the others.
    pub fn push(&mut self, frame: Frame) -> Result<(), AllocError>
        ensures { OnOk result (self.new ≡ frame ∷ self.old) }
    {
        self.frames.push(frame)?;
        Ok(())
    }

    /// Removes the innermost frame.
    pub fn pop(&mut self) -> Option<Frame>
        ensures { drafts.Pops self.old result self.new }
    {
        self.frames.pop()
    }

    /// Whether it has no frames.
    pub fn is_empty(&self) -> bool
        ensures { result ≡ drafts.is_empty self.now }
    {
        self.frames.is_empty()
    }
}

/// The frame at the start of a condition.
pub fn first_frame() -> Frame
    ensures { result ≡ drafts.first_frame }
{
    Frame {
        nots: 0,
        and: false,
        or: false,
    }
}
