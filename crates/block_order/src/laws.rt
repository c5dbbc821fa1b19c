//! Laws: ordering the blocks of a program keeps its behaviour, and a program with a cycle has no
//! order.

ghost use Rattle.std.specs.Prelude.{ℕ, List};
ghost use Rattle.bpf_insn.specs.Program.{Program};
ghost use Rattle.block_order.specs.Law.{DoAlike, HasNoCycle};
ghost use Rattle.block_order.specs.Order.{IsOrderOf, Places};

/// Law: a program in order behaves as the original one does. From each opening state and on the
/// same replies, it makes the same events on counters, and the same choice or a trap.
pub fn runs_preserved()
    ensures { (places : Places) (p : Program) (q : Program) → IsOrderOf places p q → DoAlike p q }
{}

/// Law: a program that has an order closes no cycle, and its reached edges lead only onto
/// instructions.
pub fn order_has_no_cycle()
    ensures { (bytes ordered : List ℕ) → HasNoCycle bytes ordered }
{}
