//! A pass: a ghost token, which is a seat at the table that knows one account, its own.

ghost use Rattle.std.specs.Prelude.{◌≡◌, [], ◌∷◌};
ghost use Rattle.shared_cells.specs.Rule.{KnowsOne, first_events, events_known};

use crate::rule::View;
use atomic_table::Seat;
use std::marker::Model;

/// A thread's right to act on shared cells. In contracts it has the events that it made; it has no
/// bytes.
#[derive(Drop)]
pub struct SharedPass {
    pub(crate) seat: Seat<(), View>,
}

impl Model for SharedPass {
    ghost use Rattle.std.specs.Prelude.{◌≡◌, []};
    ghost use Rattle.shared_cells.specs.Passes.{PassView};
    ghost use Rattle.shared_cells.specs.Rule.{KnowsOne, first_events};

    ghost Value = { PassView };

    ghost view = { λ p. record { table = p.seat.table_id; events = first_events p.seat.me.0 } };

    ghost invariant = { λ p. KnowsOne p.seat.me × (p.seat.me.1 ≡ []) };
}

impl SharedPass {
    // The pass of a seat that knows one account.
    pub(crate) fn new(seat: Seat<(), View>) -> SharedPass
        requires one { KnowsOne seat.me }
        requires none { seat.me.1 ≡ [] }
        ensures table { result.table ≡ seat.table_id }
        ensures events { result.events ≡ first_events seat.me.0 }
    {
        SharedPass { seat }
    }

    // The seat, which knows only the pass's events.
    pub(crate) fn into_seat(self) -> Seat<(), View>
        ensures table { result.table_id ≡ self.table }
        ensures events { events_known result.me.0 ≡ self.events ∷ [] }
        ensures none { result.me.1 ≡ [] }
    {
        let SharedPass { seat } = self;
        seat
    }
}
