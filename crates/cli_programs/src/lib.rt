//! The commands on single programs: `asm`, `list`, `compile`, `verify`, `run`.
//!
//! See docs/PROGRAM.md, "Refusals".
#![tactic(auto)]

// How they work. The shape that the command line declares is made, if the command has one. Then the
// file is read, and its bytes are taken as a text, as a rule or as a program; a program is
// verified, and may be run. The output file is written last, and only if all of it could be made.

mod asm;
mod compile;
mod list;
mod program;
mod program_tool_fault;
mod run;
mod verify;

pub use asm::assemble_file;
pub use compile::compile_file;
pub use list::list_file;
pub use program::{declared_shape, program_of_file, read_program};
pub use program_tool_fault::ProgramToolFault;
pub use run::{run_file, shared_attributes};
pub use verify::verify_file;
