//! Code that is generated from its end, so that the target of each jump exists before the jump.

ghost use Rattle.std.specs.Prelude.{◌≡◌, ◌<◌, ◌≤◌, ◌+◌, ◌-◌, [], ◌∷◌, ◌++◌, Some, None};
ghost use Rattle.std.specs.Prelude.{true, false, length, OnOk};
ghost use Rattle.flow_check.specs.Laid.{is_wide, laid};

use crate::compile_fault::CompileFault;
use bpf_insn::{Insn, MOST_SLOTS};
use std::alloc::{AllocError, Global};
use std::marker::Model;

/// The end of a program: its slots in reverse order. The second half of a wide load is a filler.
#[derive(Drop)]
pub struct Code {
    slots: Vec<Insn>,
}

impl Model for Code {
    ghost use Rattle.std.specs.Prelude.{◌≤◌, length, reverse};
    ghost use Rattle.bpf_insn.specs.Program.{Program};
    ghost use Rattle.flow_check.specs.Laid.{laid};

    ghost Value = { Program };

    ghost view = { λ c. laid (reverse c.slots.items) };

    ghost invariant = { λ c. length c.slots.items ≤ 4096 };
}

/// Adds a wide load, after a filler for its second half.
fn push_wide(slots: &mut Vec<Insn>, insn: Insn) -> Result<(), AllocError>
    ensures slots { OnOk result (slots.new.items ≡ slots.old.items ++ Insn.Exit ∷ insn ∷ []) }
    ensures short { length slots.new.items ≤ length slots.old.items + 2 }
{
    slots.push(Insn::Exit)?;
    slots.push(insn)?;
    Ok(())
}

impl Code {
    /// No code.
    pub fn new(alloc: Global) -> Code
        ensures { result ≡ [] }
    {
        Code {
            slots: Vec::new(alloc),
        }
    }

    /// The number of slots, which is the label of the first one.
    pub fn len(&self) -> usize
        ensures length { result ≡ length self.now }
        ensures in_range { result ≤ 4096 }
    {
        self.slots.len()
    }

    /// Law: the code has at most 4096 slots.
    pub fn invariant_law(&self)
        ensures { length self.now ≤ 4096 }
    {
        let _count = self.len();
    }

    /// How many slots a jump to the label passes over, if it is put in front.
    pub fn slots_to(&self, label: usize) -> usize
        requires { label ≤ length self.now }
        ensures slots { result ≡ length self.now - label }
        ensures in_range { result ≤ 4096 }
    {
        self.len() - label
    }

    /// Puts an instruction of one slot in front.
    pub fn put(&mut self, insn: Insn) -> Result<(), CompileFault>
        requires { is_wide insn ≡ false }
        ensures code { OnOk result (self.new ≡ Some insn ∷ self.old) }
        ensures long { result ≡ Err CompileFault.TooLong → 4096 ≤ length self.old }
    {
        if self.len() >= MOST_SLOTS {
            return Err(CompileFault::TooLong);
        }
        match self.slots.push(insn) {
            Ok(()) => Ok(()),
            Err(_) => Err(CompileFault::Memory),
        }
    }

    /// Puts an instruction of two slots in front.
    pub fn put_wide(&mut self, insn: Insn) -> Result<(), CompileFault>
        requires { is_wide insn ≡ true }
        ensures code { OnOk result (self.new ≡ Some insn ∷ None ∷ self.old) }
        ensures long { result ≡ Err CompileFault.TooLong → 4096 < length self.old + 2 }
    {
        if self.len() + 2 > MOST_SLOTS {
            return Err(CompileFault::TooLong);
        }
        match push_wide(&mut self.slots, insn) {
            Ok(()) => Ok(()),
            Err(_) => Err(CompileFault::Memory),
        }
    }

    /// The slots in the program's order: each instruction at its first slot, and a filler at a
    /// second half.
    pub fn into_slots(mut self) -> Vec<Insn>
        ensures { laid result.items ≡ self }
    {
        self.slots.reverse();
        self.slots
    }
}
