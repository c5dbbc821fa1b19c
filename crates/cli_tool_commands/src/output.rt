//! The outputs of commands.

ghost use Rattle.std.specs.Prelude.{◌≡◌, Some};
ghost use Rattle.cli_tool_commands.specs.Texts.{output_text, passes, warnings_of};

use cli_logs::ReportOutput;
use cli_manifests::{CheckOutput, SimulationOutput};
use diff_manifests::DiffOutput;
use stage_commands::StageOutcome;
use std::{fmt, str};

/// The output of a command: lines, each ended by LF, except for the body of a reply.
#[derive(Drop)]
pub(crate) enum ToolOutput {
    /// The messages about checked manifests: for one manifest the lines of its arrays and apps, and
    /// its warnings; or those for several.
    Checked(CheckOutput),
    /// A shell's completions, or the page of the manual.
    Completed {
        text: String,
    },
    /// The report on logs, with the counts of earlier calls; and what a server says.
    Continued {
        report: ReportOutput,
        server: String,
    },
    /// The comparison of two manifests, and whether it passes.
    Diffed {
        output: DiffOutput,
        passes: bool,
    },
    /// The program is accepted; its listing, with what is known before each instruction.
    Explained {
        text: String,
    },
    /// The program in order; its number of slots is printed.
    Ordered {
        program: Vec<u8>,
    },
    /// The body of a reply that a server would send.
    Reply {
        body: Vec<u8>,
    },
    /// The report on logs, of which the lines are printed; and what a server says.
    Reported {
        report: ReportOutput,
        server: String,
    },
    /// What was done with a folder's files and servers, or its steps; and whether all was done.
    Staged(StageOutcome),
    /// The lines of a simulation, and whether it passes.
    Simulated {
        output: SimulationOutput,
        passes: bool,
    },
    /// The program chose a release, or none, after this number of instructions; the lines of its
    /// run are printed first.
    Traced {
        lines: String,
        choice: u8,
        instructions: u32,
    },
    /// Why each app of a request gets what it gets, or of the requests of a machine.
    Why {
        text: String,
    },
}

impl ToolOutput {
    /// The lines for standard error: the warnings of a check, and why a stage isn't done.
    pub(crate) fn warnings(&self) -> &str
        ensures { result.now ≡ warnings_of self.now }
    {
        match self {
            ToolOutput::Checked(output) => output.stderr.as_str(),
            ToolOutput::Staged(outcome) => outcome.stderr.as_str(),
            _ => "",
        }
    }

    /// Whether a check, a comparison or a simulation passes, or a stage is done; any other command
    /// passes.
    pub(crate) fn passes(&self) -> bool
        ensures { result ≡ passes self.now }
    {
        match self {
            ToolOutput::Checked(output) => output.passes,
            ToolOutput::Diffed { passes, .. } => *passes,
            ToolOutput::Staged(outcome) => outcome.is_done,
            ToolOutput::Simulated { passes, .. } => *passes,
            _ => true,
        }
    }
}

impl fmt::Display for ToolOutput {
    ghost output = { λ output. Some (output_text output) };

    fn fmt<W: fmt::Write>(&self, f: &mut fmt::Formatter<W>) -> fmt::Result {
        match self {
            ToolOutput::Checked(output) => f.write_str(output.text.as_str()),
            ToolOutput::Completed { text } => f.write_str(text),
            ToolOutput::Continued { report, server } => {
                write!(f, "{}{server}", report.text.as_str())
            }
            ToolOutput::Diffed { output, .. } => f.write_str(output.text.as_str()),
            ToolOutput::Explained { text } => f.write_str(text),
            ToolOutput::Ordered { program } => {
                let slots = program.len() / 8;
                writeln!(f, "{slots} slots")
            }
            ToolOutput::Reply { body } => match str::from_utf8(body.as_slice()) {
                Ok(text) => f.write_str(text),
                Err(_) => Err(fmt::Error),
            },
            ToolOutput::Reported { report, server } => {
                f.write_str(report.text.as_str())?;
                f.write_str(server)
            }
            ToolOutput::Staged(outcome) => f.write_str(outcome.text.as_str()),
            ToolOutput::Simulated { output, .. } => f.write_str(output.text.as_str()),
            ToolOutput::Traced {
                lines,
                choice,
                instructions,
            } => writeln!(
                f,
                "{lines}choice {choice} after {instructions} instructions"
            ),
            ToolOutput::Why { text } => f.write_str(text),
        }
    }
}
