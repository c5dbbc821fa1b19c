//! Rules: a small language that says which apps get which release.
//!
//! See docs/SPECIFICATION.md, "Rules".
#![tactic(auto)]

// The method. The language has three definitions here, each for what the others can't do.
//
// The grammar defines what a rule is. It is a relation between a text's tokens and the tokens that
// remain after them, with a constructor for each production (`specs/Grammar.antt`). The value of a
// rule's tokens is defined along its productions (`specs/Says.antt`), and the verdict on a text by
// both (`specs/Verdicts.antt`). Only the productions say that `and` binds more tightly than `or`.
// But the grammar isn't an algorithm: a token is misplaced if the tokens before it begin
// some rule, and with it they don't, whatever follows.
//
// The reader defines how a rule is read (`specs/Reader`). A `Draft` is a rule that is read up to
// some token. The reader says what the next phrase makes of the draft, and which tokens remain. It
// is a function without memory or borrows. Each function of the code does one of its steps, so most
// of them need no proof file.
//
// The code does the same on vectors and borrowed texts, and may run out of memory (L5).
//
// That the reader follows the grammar is proved of the definitions (`proofs/Laws.antt`). The proof
// uses a smaller machine, which takes tokens one by one and knows only which may come next
// (`proofs/Machine.antt`). If it takes a token, some continuation completes a rule, and if it
// stops, none does. So the first token that the reader refuses is the one that the grammar calls
// misplaced. By two laws each text has a verdict (`some_verdict`), and only one (`one_verdict`).
//
// The words, the phrases and the table of tests are written out in `specs/Words.antt`,
// `specs/Phrases.antt` and `specs/Tests.antt`. The tables of the code are proved equal to them. By
// the law `words_are_exact` each word is found by its own text and by no other. A new word is a row
// in the definition and a row in the code. So is a new kind of tests, whose row has the tokens that
// it needs and the test that they make.
//
// `mod` isn't a word of the grammar, but a name that only `bucket` treats as a word. So it is still
// allowed wherever a name is, and a text that uses it as a name keeps its meaning.
//
// The line of a fault is that of its token; the text's end is in the last line. All tokens are made
// before a phrase is read, so a place without a token (L1) counts first. The first unknown name
// (L3) or number out of range (L4) is only noted, and reading continues: a misplaced token (L2)
// further down counts before it.
//
// So reading also continues after the 33rd parenthesis, which is an L4, and a text may open
// thousands. Nothing here recurses on them. The conditions around the current one are frames in a
// list (`frame.rt`). A step of a condition is written as soon as its operands are complete
// (`pending.rt`). So the steps are in post-fix order, and a rule is read, compiled and dropped by
// loops, however deep and long it is.

mod condition;
mod draft;
mod fits;
mod frame;
mod keyword;
mod laws;
mod lexer;
mod literal;
mod parser;
mod part;
mod pending;
mod phrase;
mod reader;
mod rule;
mod rule_fault;
mod statements;
mod test;
mod test_reader;
mod test_table;
mod token;

pub use condition::{RuleCondition, Step};
pub use fits::array_named;
pub use laws::{one_verdict, some_verdict, words_are_exact};
pub use literal::Literal;
pub use parser::{MOST_RULE, parse};
pub use rule::{Rule, Statement};
pub use rule_fault::{RuleFault, RuleFaultKind};
pub use test::{Comparison, Test};
