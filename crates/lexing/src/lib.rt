//! What the languages of this repository share: letters, digits and numbers, in assembler, rules,
//! names of arrays, versions, declarations and scripts.
//!
//! See docs/SPECIFICATION.md, "Rules"; docs/SPECIFICATION.md, "The assembly text".
#![tactic(auto)]

mod decimal;
mod digits;
mod letter;

pub use decimal::decimal_within;
pub use digits::{digit_value, magnitude};
pub use letter::{is_letter, is_word_byte};
