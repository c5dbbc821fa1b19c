//! Why a rule's text is refused, for its author: the line and column, what is there, and what is
//! expected.
//!
//! See docs/PROGRAM.md, "check".
#![tactic(auto)]

// The verdict on a text has only a line and a kind of fault. The rest comes from the parser itself,
// so it can't differ from the language, and there is no second grammar here.
//
// Which lexeme: a lexeme is a run of characters that a person sees as one word or number; it is one
// token or several, and no token is in two lexemes. The verdict depends only on a text's tokens and
// their lines. So the text is written again with each lexeme on its own line, and the line of its
// fault is the lexeme's number (`spread.rt`).
//
// What is expected: the text up to the lexeme is parsed with each word of the language appended.
// The words that the verdict doesn't call misplaced are expected (`trial.rt`).
//
// A wrong name or number is explained by what comes before it, such as `offer`, `flag` or a bracket
// (`lexeme_sentence.rt`).
//
// Parts of the text are escaped for printing. So another person's rule can't start a line of its
// own or control a terminal (`caret.rt`, `quoting.rt`).

mod caret;
mod follower;
mod hint;
mod lexeme;
mod lexeme_sentence;
mod place;
mod quoting;
mod rule_message;
mod spread;
mod trial;

pub use place::line_text;
pub use rule_message::{rule_fault_message, rule_too_long};
