//! The eleven registers.

ghost use Rattle.std.specs.Prelude.{◌≡◌, ◌<◌, ◌≤◌};
ghost use Rattle.bpf_insn.specs.declared.reg.Reg.{Reg};
ghost use Rattle.bpf_insn.specs.Table.{number_of};

/// A register, R0 to R10. R0 is the result, R1 to R5 are arguments, calls preserve R6 to R9, and
/// R10 is the read-only top of the stack.
#[derive(Clone, Copy, PartialEq, Eq)]
pub enum Reg {
    R0,
    R1,
    R2,
    R3,
    R4,
    R5,
    R6,
    R7,
    R8,
    R9,
    R10,
}

impl Reg {
    /// The register of this number.
    pub fn at(number: u8) -> Reg
        requires { number ≤ 10 }
        ensures some { number_of result ≡ number }
        ensures only { (r : Reg) → number_of r ≡ number → result ≡ r }
    {
        match number {
            0 => Reg::R0,
            1 => Reg::R1,
            2 => Reg::R2,
            3 => Reg::R3,
            4 => Reg::R4,
            5 => Reg::R5,
            6 => Reg::R6,
            7 => Reg::R7,
            8 => Reg::R8,
            9 => Reg::R9,
            _ => Reg::R10,
        }
    }

    /// Its number, an index into eleven registers.
    pub fn index(self) -> usize
        ensures number { result ≡ number_of self }
        ensures in_range { result < 11 }
    {
        self as usize
    }
}
