//! Programs over counters and helpers with an undefined step, by its causes.

ghost use Rattle.std.specs.Prelude.{pos, negsuc, [], ◌∷◌};
ghost use Rattle.bpf_insn.specs.declared.reg.Reg.TheVariants.{R0, R1, R2, R3, R6, R10};
ghost use Rattle.bpf_insn.specs.declared.operand.AtomicOp.TheVariants as atomic;
ghost use Rattle.bpf_insn.specs.declared.operand.AtomicSize.TheVariants as width;
ghost use Rattle.bpf_insn.specs.declared.operand.Bits.TheVariants.{Bits64};
ghost use Rattle.bpf_insn.specs.declared.operand.LoadKind.TheVariants as load;
ghost use Rattle.bpf_insn.specs.declared.operand.Operand.TheVariants.{Imm, Register};
ghost use Rattle.bpf_insn.specs.declared.operand.Size.TheVariants as size;
ghost use Rattle.bpf_insn.specs.declared.operand.WideValue.TheVariants.{Map, Cell};
ghost use Rattle.bpf_insn.specs.declared.insn.Insn.TheVariants.{Load, Store, StoreImm};
ghost use Rattle.bpf_insn.specs.declared.insn.Insn.TheVariants.{Atomic, Wide, Call, Mov};
ghost use Rattle.bpf_insn.specs.Program.{layout};
ghost use Rattle.bpf_semantics.specs.Run.{AlwaysTraps};
ghost use Rattle.worked_examples.specs.TrappingPrograms.{single};
ghost use Rattle.worked_examples.specs.TrappingCounters as traps;
ghost use Rattle.worked_examples.specs.CounterPrograms.{one_wide, one_narrow, TrapsOver};

/// A counter is accessed only with its own width. After `ldcell r6, 0, 0 / mov r2, 1`, a 64-bit
/// counter can't be accessed by `ldxw r0, [r6+0]`, `stxw [r6+0], r2`, `stb [r6+0], 1` or `aaddw
/// [r6+0], r2`. A 32-bit counter can't be accessed by `ldxdw r0, [r6+0]`, `stxdw [r6+0], r2` or
/// `aadddw [r6+0], r2`.
pub fn other_widths()
    ensures load_word { TrapsOver one_wide (traps.on_cell (Load load.Word R0 R6 (pos 0) ∷ [])) 2 }
    ensures store_word { TrapsOver one_wide (traps.on_cell (Store size.Word R6 R2 (pos 0) ∷ [])) 2 }
    ensures store_byte { TrapsOver one_wide
        (traps.on_cell (StoreImm size.Byte R6 (pos 0) (pos 1) ∷ [])) 2 }
    ensures atomic_word { TrapsOver one_wide
        (traps.on_cell (Atomic atomic.Add width.Word R6 R2 (pos 0) ∷ [])) 2 }
    ensures load_double { TrapsOver one_narrow
        (traps.on_cell (Load load.Double R0 R6 (pos 0) ∷ [])) 2 }
    ensures store_double { TrapsOver one_narrow
        (traps.on_cell (Store size.Double R6 R2 (pos 0) ∷ [])) 2 }
    ensures atomic_double { TrapsOver one_narrow
        (traps.on_cell (Atomic atomic.Add width.Double R6 R2 (pos 0) ∷ [])) 2 }
{}

/// No load of a counter is sign-extended: `ldsxw r0, [r6+0]` for a 32-bit counter.
pub fn signed_load()
    ensures { TrapsOver one_narrow (traps.on_cell (Load load.SignedWord R0 R6 (pos 0) ∷ [])) 2 }
{}

/// No counter is next to a counter's address: `ldxdw r0, [r6+1]`, and for a 32-bit counter `ldxw
/// r0, [r6+4]`. The last counter is at 0x3000FFF8: `lddw r6, 0x30010000 / mov r2, 1 / ldxw r0,
/// [r6+0]`. The number of a map isn't an address: `lddw r6, 0x40000000 / mov r2, 1 / ldxdw r0,
/// [r6+0]`.
pub fn other_addresses()
    ensures unaligned { TrapsOver one_wide (traps.on_cell (Load load.Double R0 R6 (pos 1) ∷ [])) 2 }
    ensures upper_half { TrapsOver one_narrow
        (traps.on_cell (Load load.Word R0 R6 (pos 4) ∷ [])) 2 }
    ensures past { AlwaysTraps (traps.on_address 0x30010000 (Load load.Word R0 R6 (pos 0) ∷ [])) 2 }
    ensures map { AlwaysTraps
        (traps.on_address 0x40000000 (Load load.Double R0 R6 (pos 0) ∷ [])) 2 }
{}

/// Atomic operations on the context or the stack are undefined: `aaddw [r1+0], r2`, `faddw [r1+0],
/// r2`, `aaddw [r10-8], r2`.
pub fn atomics_of_memory()
    ensures context { AlwaysTraps (traps.atomic_program atomic.Add width.Word R1 (pos 0)) 1 }
    ensures fetch { AlwaysTraps (traps.atomic_program atomic.FetchAdd width.Word R1 (pos 0)) 1 }
    ensures stack { AlwaysTraps (traps.atomic_program atomic.Add width.Word R10 (negsuc 7)) 1 }
{}

/// R10 is read-only: `ldxdw r10, [r6+0]`, `fadddw [r6+0], r10`, `xchgdw [r6+0], r10`,
/// `ldmap r10, 0`, `ldcell r10, 0, 0`.
pub fn frame_writes_of_counters()
    ensures load { TrapsOver one_wide (traps.on_cell (Load load.Double R10 R6 (pos 0) ∷ [])) 2 }
    ensures fetch { TrapsOver one_wide
        (traps.on_cell (Atomic atomic.FetchAdd width.Double R6 R10 (pos 0) ∷ [])) 2 }
    ensures exchange { TrapsOver one_wide
        (traps.on_cell (Atomic atomic.Exchange width.Double R6 R10 (pos 0) ∷ [])) 2 }
    ensures map { TrapsOver one_wide (single (Wide R10 (Map (pos 0)))) 0 }
    ensures cell { TrapsOver one_wide (single (Wide R10 (Cell (pos 0) (pos 0)))) 0 }
{}

/// An unset register is read: the value of `stxdw [r6+0], r3` and `aadddw [r6+0], r3`, the base of
/// `aadddw [r3+0], r2`, and R0 of `cmpxchgdw [r6+0], r2`.
pub fn unset_arguments()
    ensures store { TrapsOver one_wide (traps.on_cell (Store size.Double R6 R3 (pos 0) ∷ [])) 2 }
    ensures value { TrapsOver one_wide
        (traps.on_cell (Atomic atomic.Add width.Double R6 R3 (pos 0) ∷ [])) 2 }
    ensures base { TrapsOver one_wide
        (traps.on_cell (Atomic atomic.Add width.Double R3 R2 (pos 0) ∷ [])) 2 }
    ensures compared { TrapsOver one_wide
        (traps.on_cell (Atomic atomic.CompareExchange width.Double R6 R2 (pos 0) ∷ [])) 2 }
{}

/// A helper reads each of its arguments, and a call leaves R1 to R5 unset. For lookup: R1 in `ldmap
/// r1, 0 / call 3 / mov r2, 0 / call 1` and R2 in `ldmap r1, 0 / call 1`. For attr_is: R1 in `call
/// 3 / mov r2, r10 / mov r3, 0 / call 2`, R2 in `mov r3, 0 / call 2` and R3 in `mov r2, r10 / call
/// 2`. For a second `call 3` or `call 4`: R1.
pub fn unset_helper_arguments()
    ensures map { TrapsOver one_wide (layout (Wide R1 (Map (pos 0)) ∷ Call (pos 3)
        ∷ Mov Bits64 R2 (Imm (pos 0)) ∷ Call (pos 1) ∷ [])) 3 }
    ensures key { TrapsOver one_wide traps.no_key_program 1 }
    ensures number { AlwaysTraps (traps.after_call
        (Mov Bits64 R2 (Register R10) ∷ Mov Bits64 R3 (Imm (pos 0)) ∷ Call (pos 2) ∷ [])) 3 }
    ensures address { AlwaysTraps (layout (Mov Bits64 R3 (Imm (pos 0)) ∷ Call (pos 2) ∷ [])) 1 }
    ensures count { AlwaysTraps (layout (Mov Bits64 R2 (Register R10) ∷ Call (pos 2) ∷ [])) 1 }
    ensures length { AlwaysTraps (traps.two_calls (pos 3)) 2 }
    ensures salt { AlwaysTraps (traps.two_calls (pos 4)) 2 }
{}

/// A wide load names an array that exists: with one array, `ldmap r2, 1`, `ldmap r2, -1`, `ldcell
/// r2, 1, 0` and `ldcell r2, -1, 0` trap.
pub fn unknown_arrays()
    ensures map { TrapsOver one_wide (single (Wide R2 (Map (pos 1)))) 0 }
    ensures negative_map { TrapsOver one_wide (single (Wide R2 (Map (negsuc 0)))) 0 }
    ensures cell { TrapsOver one_wide (single (Wide R2 (Cell (pos 1) (pos 0)))) 0 }
    ensures negative_cell { TrapsOver one_wide (single (Wide R2 (Cell (negsuc 0) (pos 0)))) 0 }
{}

/// There are only helpers 1 to 4: `call 0`, `call 5`, `call -1`. A lookup requires a map's number:
/// `mov r1, MAP / mov r2, 0 / call 1` traps for 0x40000001, past one array, and for 0.
pub fn unknown_helpers()
    ensures zero { AlwaysTraps (single (Call (pos 0))) 0 }
    ensures five { AlwaysTraps (single (Call (pos 5))) 0 }
    ensures negative { AlwaysTraps (single (Call (negsuc 0))) 0 }
    ensures past_map { TrapsOver one_wide (traps.missing_map_program (pos 0x40000001)) 2 }
    ensures no_map { TrapsOver one_wide (traps.missing_map_program (pos 0)) 2 }
{}

/// `stb [r10-8], 0 / mov r1, 1 / mov r2, r10 / add r2, PLACE / mov r3, COUNT / call 2` compares at
/// most 64 bytes, which are on the stack and set. So it traps for 65 at -65, 2 at -1, 1 at -513 and
/// 2 at -8.
pub fn compared_bytes()
    ensures long { AlwaysTraps (traps.compare_program (negsuc 64) (pos 65)) 5 }
    ensures across_top { AlwaysTraps (traps.compare_program (negsuc 0) (pos 2)) 5 }
    ensures below { AlwaysTraps (traps.compare_program (negsuc 512) (pos 1)) 5 }
    ensures unset { AlwaysTraps (traps.compare_program (negsuc 7) (pos 2)) 5 }
{}
