//! Laws of the definitions. Nothing that runs calls them.

ghost use Rattle.bpf_insn.specs.declared.insn.Insn.{Insn as SomeInsn};
ghost use Rattle.why_refused_program.specs.Reads.{AreRead};

/// Law: the registers in an instruction's comment are those that it reads by the rules.
pub fn registers_are_read()
    ensures { (i : SomeInsn) → AreRead i }
{}
