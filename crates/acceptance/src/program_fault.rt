//! Why bytes aren't a program.

ghost use Rattle.std.specs.Prelude.{◌≡◌, Some};
ghost use Rattle.acceptance.specs.Program as programs;
ghost use Rattle.acceptance.specs.Rule as rules;
ghost use Rattle.acceptance.specs.Texts.{program_fault_text, rule_refusal_text};

use bpf_verify::Refusal;
use flow_check::FlowFault;
use rule_compile::CompileFault;
use rule_lang::RuleFault;
use std::error::Error;
use std::fmt;

/// Why bytes aren't a program of a shape.
#[derive(Debug, Drop)]
pub enum ProgramFault {
    /// F1 to F9: the bytes aren't a program whose edges lead forward.
    Flow(FlowFault),
    /// V1 to V15: the verifier refuses the program.
    Verify(Refusal),
}

impl ProgramFault {
    /// Whether it is F9 or V15: an allocation failed, so the bytes may still be a program.
    pub fn is_memory(&self) -> bool
        ensures { result ≡ programs.is_memory self.now }
    {
        match self {
            ProgramFault::Flow(FlowFault::Memory) => true,
            ProgramFault::Flow(FlowFault::Rule { .. }) => false,
            ProgramFault::Verify(Refusal::Memory) => true,
            ProgramFault::Verify(Refusal::Rule { .. }) => false,
        }
    }
}

impl fmt::Display for ProgramFault {
    ghost output = { λ fault. Some (program_fault_text fault) };

    fn fmt<W: fmt::Write>(&self, f: &mut fmt::Formatter<W>) -> fmt::Result {
        match self {
            ProgramFault::Flow(fault) => write!(f, "{fault}"),
            ProgramFault::Verify(refusal) => write!(f, "{refusal}"),
        }
    }
}

impl Error for ProgramFault {}

/// Why a text doesn't give a program of a shape.
#[derive(Debug, Drop)]
pub enum RuleTextFault {
    /// L1 to L5: the text isn't a rule.
    Text(RuleFault),
    /// C1 and C2: its rule has no program.
    Compile(CompileFault),
}

impl RuleTextFault {
    /// Whether it is L5 or C2: an allocation failed, so the text may still give a program.
    pub fn is_memory(&self) -> bool
        ensures { result ≡ rules.is_memory self.now }
    {
        match self {
            RuleTextFault::Text(RuleFault::Memory) => true,
            RuleTextFault::Text(RuleFault::At { .. }) => false,
            RuleTextFault::Compile(CompileFault::Memory) => true,
            RuleTextFault::Compile(CompileFault::TooLong) => false,
        }
    }
}

impl fmt::Display for RuleTextFault {
    ghost output = { λ fault. Some (rule_refusal_text fault) };

    fn fmt<W: fmt::Write>(&self, f: &mut fmt::Formatter<W>) -> fmt::Result {
        match self {
            RuleTextFault::Text(fault) => write!(f, "{fault}"),
            RuleTextFault::Compile(fault) => write!(f, "{fault}"),
        }
    }
}

impl Error for RuleTextFault {}
