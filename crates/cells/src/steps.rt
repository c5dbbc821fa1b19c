//! The interface of every counter store. A pass, which is a ghost token, is one user's right to act
//! on the cells; each counter store defines how an event extends it.

ghost use Rattle.cells.specs.Events.{event, CanReply};
ghost use Rattle.cells.specs.Grown.{GrowsBySnoc, GrowsByAppend};

use crate::event::{CellNo, CellOp};

/// Cells that can be read and changed.
pub trait CellSteps {
    ghost use Rattle.cells.specs.declared.event.CellEvent.{CellEvent};

    type Pass;

    /// The pass belongs to these cells.
    ghost belongs: { Self → Self.Pass → Type 0 };

    /// The pass grew by the event: before, the event, after.
    ghost grew: { Self.Pass → CellEvent → Self.Pass → Type 0 };

    /// One atomic operation on a cell. The reply is the previous value, for a Store 0.
    // open: which reply an operation gets. For `PlainCells`, `grew` is `IsEvent`: the reply is the
    // cell's previous value, and only this cell gets a new one.
    fn act(&self, pass: &mut Self::Pass, cell: CellNo, op: CellOp) -> u64
        requires { belongs self.now pass.old }
        ensures belongs { belongs self.now pass.new }
        ensures grew { grew pass.old (event cell.number op result) pass.new }
        ensures fits { CanReply cell.number op result };
}

/// Law: a pass that grows by a list of events, and then by an event or another list, grows by one
/// longer list.
pub fn growth<C: CellSteps>()
    ensures snoc { GrowsBySnoc C.grew }
    ensures append { GrowsByAppend C.grew }
{}
