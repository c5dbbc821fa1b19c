//! The rule of the table of ceilings. No value of these types is made; they are names for
//! definitions.

use atomic_table::{Join, Play, TableRule};
use std::collections::LinkedList;

/// A number to which a counter's ceiling was raised.
pub struct Raised {
    pub cell: u64,
    pub number: u64,
}

/// What a seat knows: all that was raised up to some moment, the first first; and what a reader
/// knew that was joined to it. The writer's seat knows all that was raised.
pub struct Known {
    pub is_writer: bool,
    pub raised: LinkedList<Raised>,
    pub joined: LinkedList<Raised>,
}

/// The rule of a table with this number of words.
pub struct OneLog;

impl TableRule<(), Known, usize> for OneLog {
    ghost use Rattle.std.specs.Prelude.{[]};
    ghost use Rattle.ceilings.specs.Rule.{HasLog, writer_of};

    ghost holds = { HasLog };

    ghost first = { λ _. writer_of [] };
}

/// A reader's seat is made, which knows nothing.
pub struct Enter;

impl Play<(), Known> for Enter {
    ghost then = { λ _ _ _ _. Unit {0} };
}

/// A look at a ceiling.
pub struct Look;

impl Play<(), Known> for Look {
    ghost use Rattle.ceilings.specs.Rule.{Looks};

    ghost then = { λ s old found new. Looks s.word old found new };
}

/// A ceiling is raised.
pub struct Raise;

impl Play<(), Known> for Raise {
    ghost use Rattle.ceilings.specs.Rule.{Raises};

    ghost then = { λ s old found new. Raises s.word old found new };
}

/// What a reader knows is joined to the writer's seat.
pub struct JoinReader;

impl Join<Known> for JoinReader {
    ghost use Rattle.std.specs.Prelude.{[]};
    ghost use Rattle.ceilings.specs.Rule.{joined_to, reader_of};

    ghost both = { joined_to };

    ghost spent = { reader_of [] };
}

/// The writer's seat is compared with what was joined to it.
pub struct Compare;

impl Play<(), Known> for Compare {
    ghost use Rattle.ceilings.specs.Rule.{Compares};

    ghost then = { λ _ old _ new. Compares old new };
}
