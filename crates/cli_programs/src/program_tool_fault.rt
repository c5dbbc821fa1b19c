//! Why a command on a program is refused.

ghost use Rattle.std.specs.Prelude.{Some};
ghost use Rattle.cli_programs.specs.Texts.{fault_text};

use acceptance::{ProgramFault, RuleTextFault};
use bounded_files::ResourceFault;
use bpf_text::{AsmFault, ListFault};
use cells::CellsFault;
use std::fmt;

/// What is wrong; it is displayed as it is printed.
#[derive(Drop)]
pub enum ProgramToolFault {
    /// B3 and B4: a file can't be read or written, or an allocation of the command failed.
    Resource(ResourceFault),
    /// N1 to N3: an array from the command line can't be declared.
    Arrays(CellsFault),
    /// A1 to A7: the text can't be assembled.
    Text(AsmFault),
    /// L1 to L5, C1 and C2: the text isn't a rule, or the rule has no program.
    Rule(RuleTextFault),
    /// I1 to I7: the bytes aren't instructions.
    Bytes(ListFault),
    /// F1 to F9, V1 to V15: the bytes aren't a program, or the program isn't accepted.
    Program(ProgramFault),
}

impl fmt::Display for ProgramToolFault {
    ghost output = { λ fault. Some (fault_text fault) };

    fn fmt<W: fmt::Write>(&self, f: &mut fmt::Formatter<W>) -> fmt::Result {
        match self {
            ProgramToolFault::Resource(fault) => write!(f, "{fault}"),
            ProgramToolFault::Arrays(fault) => write!(f, "{fault}"),
            ProgramToolFault::Text(fault) => write!(f, "{fault}"),
            ProgramToolFault::Rule(fault) => write!(f, "{fault}"),
            ProgramToolFault::Bytes(fault) => write!(f, "{fault}"),
            ProgramToolFault::Program(fault) => write!(f, "{fault}"),
        }
    }
}
