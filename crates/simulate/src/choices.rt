//! The choices of the clients of all buckets for one app.

ghost use Rattle.std.specs.Prelude.{◌≡◌, None, IfOk};
ghost use Rattle.simulate.specs.Counts.{AreChoices, choices_or_none};

use attrs::Bucket;
use std::alloc::{AllocError, Global};
use std::marker::Model;

/// A choice for each of the 10000 buckets, in order: 0 for none, or the number of a release, at
/// most 64.
#[derive(Drop)]
pub struct Choices {
    choices: Vec<u8>,
}

impl Model for Choices {
    ghost use Rattle.std.specs.Prelude.{List, ℕ};
    ghost use Rattle.simulate.specs.Counts.{AreChoices};

    ghost Value = { List ℕ };

    ghost view = { λ c. c.choices.items };

    ghost invariant = { λ c. AreChoices c.choices.items };
}

impl Choices {
    /// Wraps these choices.
    pub(crate) fn new(choices: Vec<u8>) -> Choices
        requires { AreChoices choices.items }
        ensures { result ≡ choices.items }
    {
        Choices { choices }
    }

    /// No release for any bucket: the choices for an app that a ruleset doesn't have.
    // open: whether an allocation fails.
    pub fn none(alloc: Global) -> Result<Choices, AllocError>
        ensures { IfOk result (λ c. c ≡ choices_or_none None) }
    {
        let choices = Vec::from_elem(alloc, 0, Bucket::COUNT as usize)?;
        Ok(Choices { choices })
    }

    /// The choices as a slice.
    pub fn as_slice(&self) -> &[u8]
        ensures value { result.now ≡ self.now }
        ensures all { AreChoices result.now }
    {
        self.choices.as_slice()
    }
}
