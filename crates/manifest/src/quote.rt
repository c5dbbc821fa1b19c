//! A text of a manifest that a fault quotes.

ghost use Rattle.std.specs.Prelude.{◌≡◌, IfOk, Some};
ghost use Rattle.printing.specs.Printed.{printed};

use printing::Printed;
use std::alloc::{AllocError, Global};
use std::fmt;
use std::marker::Model;

/// A key or a name of the manifest. `Display` escapes it for printing.
#[derive(Drop)]
pub struct Quote {
    text: String,
}

impl Model for Quote {
    ghost use Rattle.std.specs.Prelude.{ℕ, List, string_bytes};

    ghost Value = { List ℕ };

    ghost view = { λ q. string_bytes q.text };
}

impl Quote {
    /// A quote of a copy of this text.
    pub fn of(alloc: Global, text: &str) -> Result<Quote, AllocError>
        ensures { IfOk result (λ quote. quote ≡ text.now) }
    {
        let text = String::from_str(alloc, text)?;
        Ok(Quote { text })
    }

    /// The text.
    pub fn as_str(&self) -> &str
        ensures { result.now ≡ self.now }
    {
        self.text.as_str()
    }
}

impl fmt::Display for Quote {
    ghost output = { λ text. Some (printed text) };

    fn fmt<W: fmt::Write>(&self, f: &mut fmt::Formatter<W>) -> fmt::Result {
        let text = Printed(self.as_str());
        write!(f, "{text}")
    }
}
