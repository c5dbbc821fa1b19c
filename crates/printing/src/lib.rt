//! Printing: untrusted text (appids, keys, names, lines of rules, words of a command line, paths),
//! columns of tables, and texts that grow piece by piece. No control character of untrusted text
//! reaches the terminal, and no such text can start a line.
#![tactic(auto)]

mod columns;
mod escaped_text;
mod laws;
mod text_buffer;

pub use columns::{push_blanks, push_column, width_of};
pub use escaped_text::{Printed, PrintedLines, has_control, is_control};
pub use laws::no_control_is_printed;
pub use text_buffer::TextBuffer;
