//! Programs with an undefined step, by its causes.

ghost use Rattle.std.specs.Prelude.{pos, negsuc};
ghost use Rattle.bpf_insn.specs.declared.reg.Reg.TheVariants.{R0, R1, R10};
ghost use Rattle.bpf_insn.specs.declared.operand.AluOp.TheVariants as alu;
ghost use Rattle.bpf_insn.specs.declared.operand.Bits.TheVariants.{Bits64};
ghost use Rattle.bpf_insn.specs.declared.operand.LoadKind.TheVariants as load;
ghost use Rattle.bpf_insn.specs.declared.operand.Operand.TheVariants.{Imm};
ghost use Rattle.bpf_insn.specs.declared.operand.Size.TheVariants as size;
ghost use Rattle.bpf_insn.specs.declared.operand.WideValue.TheVariants.{Number};
ghost use Rattle.bpf_insn.specs.declared.insn.Insn.TheVariants.{Alu, Mov, Load};
ghost use Rattle.bpf_insn.specs.declared.insn.Insn.TheVariants.{StoreImm, Store, Wide};
ghost use Rattle.bpf_semantics.specs.Run.{AlwaysTraps};
ghost use Rattle.worked_examples.specs.TrappingPrograms as traps;

/// An unset register is read: `exit`, `add r0, 1`, `mov r0, 1 / add r0, r2`, `mov r0, r2`,
/// `movsx8 r0, r2`, `neg r0`, `le16 r0`.
pub fn unset_operands()
    ensures exit { AlwaysTraps traps.exit_program 0 }
    ensures add { AlwaysTraps traps.add_program 0 }
    ensures add_register { AlwaysTraps traps.add_register_program 1 }
    ensures mov { AlwaysTraps traps.mov_program 0 }
    ensures movsx { AlwaysTraps traps.movsx_program 0 }
    ensures neg { AlwaysTraps traps.neg_program 0 }
    ensures end { AlwaysTraps traps.end_program 0 }
{}

/// An unset register is compared, or is the base or the value of an access:
/// `jeq r2, 0, +0 / exit`, `mov r2, 0 / jeq r2, r3, +0 / exit`, `ldxb r0, [r2+0]`, `stb [r2+0], 1`,
/// `stxb [r10-1], r2`.
pub fn unset_places()
    ensures left { AlwaysTraps traps.left_program 0 }
    ensures right { AlwaysTraps traps.right_program 1 }
    ensures load { AlwaysTraps traps.load_base_program 0 }
    ensures store { AlwaysTraps traps.store_base_program 0 }
    ensures value { AlwaysTraps traps.store_value_program 0 }
{}

/// An unset byte of the stack is read: the third step of
/// `mov r2, 7 / stxw [r10-8], r2 / ldxw r0, [r10-4] / exit`, and the second of
/// `sth [r10-2], 1 / ldxw r0, [r10-4] / exit` and `sth [r10-4], 1 / ldxw r0, [r10-4] / exit`.
pub fn unset_bytes()
    ensures word { AlwaysTraps traps.unset_word_program 2 }
    ensures low_unset { AlwaysTraps traps.half_set_program 1 }
    ensures high_unset { AlwaysTraps traps.low_set_program 1 }
{}

/// R10 is read-only: `mov r10, 0`, `add r10, 8`, `ldxb r10, [r1+0]`, `lddw r10, 0`.
pub fn frame_writes()
    ensures mov { AlwaysTraps (traps.single (Mov Bits64 R10 (Imm (pos 0)))) 0 }
    ensures add { AlwaysTraps (traps.single (Alu Bits64 alu.Add R10 (Imm (pos 8)))) 0 }
    ensures load { AlwaysTraps (traps.single (Load load.Byte R10 R1 (pos 0))) 0 }
    ensures wide { AlwaysTraps (traps.single (Wide R10 (Number 0))) 0 }
{}

/// Loads outside the regions, by one byte: `ldxb r0, [r1+64]`, `ldxdw r0, [r1+57]`,
/// `ldxb r0, [r1-1]`, `ldxb r0, [r10+0]`, `ldxb r0, [r10-513]`.
pub fn loads_outside()
    ensures past_context { AlwaysTraps (traps.single (Load load.Byte R0 R1 (pos 64))) 0 }
    ensures across_end { AlwaysTraps (traps.single (Load load.Double R0 R1 (pos 57))) 0 }
    ensures before_context { AlwaysTraps (traps.single (Load load.Byte R0 R1 (negsuc 0))) 0 }
    ensures above_stack { AlwaysTraps (traps.single (Load load.Byte R0 R10 (pos 0))) 0 }
    ensures below_stack { AlwaysTraps (traps.single (Load load.Byte R0 R10 (negsuc 512))) 0 }
{}

/// The context is read-only: `stb [r1+0], 1` and `stxdw [r1+0], r1`. The stack has bounds: `stb
/// [r10+0], 1`, `stw [r10-2], 1` and `stb [r10-513], 1`.
pub fn stores_outside()
    ensures context_imm { AlwaysTraps (traps.single (StoreImm size.Byte R1 (pos 0) (pos 1))) 0 }
    ensures context_register { AlwaysTraps (traps.single (Store size.Double R1 R1 (pos 0))) 0 }
    ensures above_stack { AlwaysTraps (traps.single (StoreImm size.Byte R10 (pos 0) (pos 1))) 0 }
    ensures across_top { AlwaysTraps (traps.single (StoreImm size.Word R10 (negsuc 1) (pos 1))) 0 }
    ensures below_stack { AlwaysTraps
        (traps.single (StoreImm size.Byte R10 (negsuc 512) (pos 1))) 0 }
{}

/// No instruction begins at the slot: a program of no slots, `mov r0, 0` and its end, `ja +1 /
/// exit`, `ja -2 / exit`, and `ja +1 / lddw r0, 5 / exit`, which lands on a second half. A jump
/// past the end continues there and then traps; a jump below slot 0 itself traps.
pub fn no_instruction()
    ensures empty { AlwaysTraps traps.empty_program 0 }
    ensures end { AlwaysTraps traps.endless_program 1 }
    ensures past { AlwaysTraps traps.past_program 1 }
    ensures before { AlwaysTraps traps.before_program 0 }
    ensures second_half { AlwaysTraps traps.half_program 1 }
{}
