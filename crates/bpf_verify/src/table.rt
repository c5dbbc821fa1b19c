//! How a generator of programs proves that a program is accepted.

ghost use Rattle.std.specs.Prelude.{ℕ};
ghost use Rattle.bpf_insn.specs.Program.{Program};
ghost use Rattle.cells.specs.Arrays.{AppShape};
ghost use Rattle.bpf_verify.specs.Accepted.{IsAccepted};
ghost use Rattle.bpf_verify.specs.Table.{SlotFacts, IsTable};

/// Law: a program is accepted if it has a table of facts for its slots. The facts of slot 0 hold at
/// the start, and each edge preserves them. No slot breaks a rule in an entry that knows at least
/// its facts.
pub fn table_is_enough()
    ensures { (p : Program) (shape : AppShape) (table : ℕ → SlotFacts) → IsTable p shape table
        → IsAccepted p shape }
{}
