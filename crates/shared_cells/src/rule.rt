//! The rule of the table of words, and how the knowledge of its seats, which are ghost tokens, is
//! gained, split and joined. No value of these types is made; they are names for definitions.

use atomic_table::{Join, Play, Split, TableRule};
use cells::{CellEvent, CellOp};
use std::collections::LinkedList;
use std::marker::{Brand, PhantomData};
use std::snapshot::Snapshot;

/// The number of a pass, and the events that it made.
pub struct Account {
    pub number: u64,
    pub events: LinkedList<CellEvent>,
}

/// What a seat knows: the accounts of passes.
pub type View = LinkedList<Account>;

/// How cells open: how many passes are made to them, and their values.
#[derive(Drop)]
pub struct Opening {
    pub passes: usize,
    pub values: Snapshot<Vec<u64>>,
}

/// The rule of the table, in which the number of passes and the opening values are fixed.
pub struct OneHistory;

impl TableRule<(), View, Opening> for OneHistory {
    ghost use Rattle.shared_cells.specs.Rule.{HasHistory, new_accounts};

    ghost holds = { λ o. HasHistory o.values.value.items o.passes };

    ghost first = { λ o. new_accounts 0 o.passes };
}

/// The cell and the operation of a step, which its call names.
pub trait NamedAccess {
    ghost use Rattle.std.specs.Prelude.{ℕ};
    ghost use Rattle.cells.specs.declared.event.CellOp.{CellOp};

    ghost cell: { ℕ };

    ghost op: { CellOp };
}

// The default of a call. `act` names its own cell and operation in its proof, so these two mean
// nothing.
impl NamedAccess for Brand {
    ghost use Rattle.cells.specs.declared.event.CellOp.TheVariants.{Load};

    ghost cell = { 0 };

    ghost op = { Load };
}

/// A step by which a pass gains its event.
pub struct OneEvent<J: NamedAccess> {
    access: PhantomData<J>,
}

impl<J: NamedAccess> Play<(), View> for OneEvent<J> {
    ghost use Rattle.shared_cells.specs.Rule.{Gains};

    ghost then = { λ s old found new. Gains J.cell J.op old found new };
}

/// A look at a word. It makes no event, and what its seat knows stays as it is.
pub struct Look;

impl Play<(), View> for Look {
    ghost then = { λ _ _ _ _. Unit {0} };
}

/// The first account goes to a new seat.
pub struct CutFirst;

impl Split<View> for CutFirst {
    ghost use Rattle.shared_cells.specs.Rule.{all_but_first, first_only};

    ghost left = { all_but_first };

    ghost right = { first_only };
}

/// One seat takes over the accounts of another, before its own.
pub struct TakeIn;

impl Join<View> for TakeIn {
    ghost use Rattle.std.specs.Prelude.{[], ◌++◌};

    ghost both = { λ own other. other ++ own };

    ghost spent = { [] };
}
