//! The output of a task.

ghost use Rattle.std.specs.Prelude.{Some};
ghost use Rattle.cli_tasks.specs.Texts.{output_text};

use std::fmt;

/// The output of a task: lines, each ended by LF.
#[derive(Drop)]
pub enum TaskOutput {
    /// The text was assembled into these bytes; their number of slots is printed.
    Assembled { program: Vec<u8> },
    /// The rule was compiled into a program of `slots` slots.
    Compiled { slots: usize },
    /// The listing of the bytes: a line for each instruction.
    Listed { text: String },
    /// The program is accepted; its length in slots.
    Accepted { slots: usize },
    /// The program chose a release, or none, after this number of instructions.
    Chosen { choice: u8, instructions: u32 },
    /// The script was played; the lines of its events.
    Replayed { text: String },
    /// The lines of a server's reply.
    Replied { text: String },
}

impl fmt::Display for TaskOutput {
    ghost output = { λ output. Some (output_text output) };

    fn fmt<W: fmt::Write>(&self, f: &mut fmt::Formatter<W>) -> fmt::Result {
        match self {
            TaskOutput::Assembled { program } => {
                let slots = program.len() / 8;
                writeln!(f, "{slots} slots")
            }
            TaskOutput::Compiled { slots } => writeln!(f, "{slots} slots"),
            TaskOutput::Listed { text } => f.write_str(text),
            TaskOutput::Accepted { slots } => writeln!(f, "accepted {slots} slots"),
            TaskOutput::Chosen {
                choice,
                instructions,
            } => writeln!(f, "choice {choice} after {instructions} instructions"),
            TaskOutput::Replayed { text } => f.write_str(text),
            TaskOutput::Replied { text } => f.write_str(text),
        }
    }
}
