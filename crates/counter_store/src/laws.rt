//! A law of ledgers, by the definitions only.

ghost use Rattle.counter_store.specs.Quotas.{PlacesAreStored};

use cells::arrays_lie_apart;

/// Law: if each ceiling and each limit is backed, a place of a quota that is below a ceiling is
/// below the number of its cell, and no place is past a limit.
pub fn places_are_stored()
    ensures { PlacesAreStored }
{
    arrays_lie_apart();
}
