//! Laws of histories and of passes, by the definitions only.

ghost use Rattle.shared_cells.specs.Loads.{LoadsCanGo, OthersAreKept};
ghost use Rattle.shared_cells.specs.Passes.{PassesGainLists};

/// Law: a legal history stays legal without the Loads of one pass, with the same values after it,
/// and the other passes keep their events.
pub fn loads_can_go()
    ensures legal { LoadsCanGo }
    ensures others { OthersAreKept }
{}

/// Law: a pass that acts several times has its new events, in their order, after its earlier ones.
pub fn passes_gain_lists()
    ensures { PassesGainLists }
{}
