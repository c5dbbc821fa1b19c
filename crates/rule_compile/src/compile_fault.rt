//! Why a rule isn't compiled.

ghost use Rattle.std.specs.Prelude.{◌≡◌, Some};
ghost use Rattle.rule_compile.specs.Texts.{compile_fault_text};
ghost use Rattle.rule_compile.specs.declared.compile_fault.CompileFault.TheVariants.{Memory};

use std::alloc::AllocError;
use std::error::Error;
use std::fmt;

/// Why `compile` refuses a rule.
#[derive(Debug, Drop)]
pub enum CompileFault {
    /// Its code would exceed 4096 slots.
    TooLong,
    /// An allocation failed.
    Memory,
}

impl fmt::Display for CompileFault {
    ghost output = { λ fault. Some (compile_fault_text fault) };

    fn fmt<W: fmt::Write>(&self, f: &mut fmt::Formatter<W>) -> fmt::Result {
        match self {
            CompileFault::TooLong => f.write_str("C1 TooLong"),
            CompileFault::Memory => f.write_str("C2 Memory"),
        }
    }
}

impl Error for CompileFault {}

impl From<AllocError> for CompileFault {
    ghost from_gives = { λ _ fault. fault ≡ Memory };

    fn from(_: AllocError) -> Self {
        CompileFault::Memory
    }
}
