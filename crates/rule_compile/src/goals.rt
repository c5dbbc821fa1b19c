//! Jump targets of conditions, and the conditions that are still to be written.

ghost use Rattle.std.specs.Prelude.{◌≡◌, [], ◌∷◌, OnOk, IfErr, IfSome, IfNone};

use crate::compile_fault::CompileFault;
use std::alloc::Global;
use std::marker::Model;

/// The code jumps to the label if its condition has this truth value, and otherwise falls through.
#[derive(Clone, Copy)]
pub struct Goal {
    pub sense: bool,
    pub label: usize,
}

/// The goals of conditions that are still to be written, the next one last.
#[derive(Drop)]
pub struct Goals {
    goals: Vec<Goal>,
}

impl Model for Goals {
    ghost use Rattle.std.specs.Prelude.{List, reverse};
    ghost use Rattle.rule_compile.specs.declared.goals.Goal.{Goal};

    ghost Value = { List Goal };

    ghost view = { λ g. reverse g.goals.items };
}

impl Goals {
    /// No goals.
    pub fn new(alloc: Global) -> Goals
        ensures { result ≡ [] }
    {
        Goals {
            goals: Vec::new(alloc),
        }
    }

    /// Adds a goal, which is the next.
    pub fn push(&mut self, sense: bool, label: usize) -> Result<(), CompileFault>
        ensures goals { OnOk result
            (self.new ≡ record { sense = sense; label = label } ∷ self.old) }
        ensures memory { IfErr result (λ e. e ≡ CompileFault.Memory) }
    {
        match self.goals.push(Goal { sense, label }) {
            Ok(()) => Ok(()),
            Err(_) => Err(CompileFault::Memory),
        }
    }

    /// The next goal, if there is one.
    pub fn pop(&mut self) -> Option<Goal>
        ensures some { IfSome result (λ g. self.old ≡ g ∷ self.new) }
        ensures none { IfNone result (self.old ≡ []) }
    {
        self.goals.pop()
    }
}
