//! The texts of a condition, which grow piece by piece. Nothing is proved of them here: the
//! condition is read back.

use attrs::{Attribute, Elapsed};
use rule_eval::push_test;
use rule_lang::{Literal, Test};
use std::alloc::{AllocError, Global};
use std::mem;

/// The texts that `and` joins, the one that is being written, and the days that they name. If an
/// allocation fails, a part is left out, and they aren't complete.
pub(crate) struct TestTexts {
    texts: Vec<String>,
    text: String,
    days: Vec<u32>,
    is_complete: bool,
}

impl TestTexts {
    /// None so far.
    pub(crate) fn new(alloc: Global) -> TestTexts {
        TestTexts {
            texts: Vec::new(alloc),
            text: String::new(alloc),
            days: Vec::new(alloc),
            is_complete: true,
        }
    }

    /// Leaves a part out.
    pub(crate) fn fail(&mut self) {
        self.is_complete = false;
    }

    /// Adds a piece to the text.
    pub(crate) fn push(&mut self, piece: &str) {
        if self.text.push_str(piece).is_err() {
            self.fail();
        }
    }

    /// Adds a test to the text.
    pub(crate) fn add_test(&mut self, test: Test) {
        if push_test(&mut self.text, &test).is_err() {
            self.fail();
        }
        drop(test);
    }

    /// Adds the test whether an attribute is this text.
    pub(crate) fn add_attribute(&mut self, attribute: Attribute, literal: &Literal) {
        match Literal::of(*self.text.allocator(), literal.as_str()) {
            Ok(text) => self.add_test(Test::Attr { attribute, text }),
            Err(_) => self.fail(),
        }
    }

    /// Notes a day that the text names.
    pub(crate) fn note_day(&mut self, day: u32) {
        if day > Elapsed::LAST_DAY {
            return;
        }
        match self.days.push(day) {
            Ok(()) => {}
            Err(_) => self.fail(),
        }
    }

    /// Begins one of several parts, of which one has to hold.
    pub(crate) fn begin_part(&mut self, place: usize, count: usize) {
        if place > 0 {
            self.push(" or ");
        } else if count > 1 {
            self.push("(");
        }
    }

    /// Ends the last of these parts, and the text.
    pub(crate) fn end_parts(&mut self, count: usize) {
        if count > 1 {
            self.push(")");
        }
        self.end();
    }

    /// Ends the text; the next one begins.
    pub(crate) fn end(&mut self) {
        let next = String::new(*self.text.allocator());
        let text = mem::replace(&mut self.text, next);
        match self.texts.push(text) {
            Ok(()) => {}
            Err(_) => self.fail(),
        }
    }

    /// The texts that have ended, if they are complete. Their days are added to `days`.
    pub(crate) fn finish(self, days: &mut Vec<u32>) -> Result<Vec<String>, AllocError> {
        let TestTexts {
            texts,
            text,
            days: named,
            is_complete,
        } = self;
        drop(text);
        let added = add_days(days, &named);
        drop(named);
        if is_complete && added.is_ok() {
            Ok(texts)
        } else {
            Err(AllocError)
        }
    }
}

// Adds those days that aren't there yet.
fn add_days(days: &mut Vec<u32>, more: &[u32]) -> Result<(), AllocError> {
    for day in more {
        if !days.contains(day) {
            days.push(*day)?;
        }
    }
    Ok(())
}
