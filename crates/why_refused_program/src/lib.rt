//! A program with what is known before each of its instructions, in words. It is a listing with a
//! comment at the end of each line, so the text assembles to the same bytes.
//!
//! See docs/PROGRAM.md, "explain".
#![tactic(auto)]

// The comment at a program point describes the definition's entry (abstract state) there; a walk
// over the program points lends it (`bpf_verify`). It has the registers that the instruction reads,
// those that changed if the previous instruction continues to it, and the stack slot that a load
// reads. At the refused place it has the rule, and words that no clause fixes. After that nothing
// is known, so the listing continues without comments.

mod accesses;
mod arrays;
mod bits;
mod calls;
mod explained;
mod insn_line;
mod laws;
mod reads;
mod refused;
mod register_texts;
mod sentence;
mod values;
mod way;

pub use arrays::push_counter;
pub use explained::{Explained, explain};
pub use laws::registers_are_read;
pub use refused::{RefusedPlace, refused_place};
