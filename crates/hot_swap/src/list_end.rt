//! The end of a published list, where rulesets are appended. Only its publisher has it.

ghost use Rattle.std.specs.Prelude.{◌≡◌};
ghost use Rattle.hot_swap.specs.Book.{word_of};

use crate::book::CountsRulesets;
use logbook::Word;
use ruleset::Ruleset;
use std::sync::atomic::{AtomicU64, Ordering};

/// The word of the book, which is the length of the list, and the number of the newest install.
/// Only this install may append the next ruleset.
#[derive(Drop)]
pub(crate) struct ListEnd {
    pub(crate) word: Word<Ruleset, u64, CountsRulesets>,
    install: AtomicU64,
    ghost word_is: { word ≡ word_of word.book },
}

impl ListEnd {
    /// The end of a book that was just opened.
    pub(crate) fn new(word: Word<Ruleset, u64, CountsRulesets>) -> ListEnd
        requires { word ≡ word_of word.book }
        ensures { result.word ≡ word }
    {
        ListEnd {
            word,
            install: AtomicU64::new(0),
        }
    }

    /// The number of a new install. Earlier installs may then append nothing.
    pub(crate) fn begin_install(&self) -> u64 {
        self.install.fetch_add(1, Ordering::SeqCst).wrapping_add(1)
    }

    /// Whether this install may append its ruleset: none began after it.
    pub(crate) fn is_last(&self, install: u64) -> bool {
        self.install.load(Ordering::SeqCst) == install
    }
}
