//! An entry names only lookups before it: if it knows a lookup's result, the call is at an earlier
//! slot.

ghost use Rattle.worked_examples.specs.LooksBack as entry;

/// The result of an instruction names no lookup, except a copy of a lookup's result.
pub fn values_look_back()
    ensures results { entry.ResultsNameNone }
    ensures negated { entry.NegationsNameNone }
    ensures extended { entry.ExtensionsNameNone }
    ensures reordered { entry.ReorderingsNameNone }
    ensures loaded { entry.LoadedNameNone }
    ensures wide { entry.WideNameNone }
    ensures copied { entry.CopiesLookBack }
{}

/// If states name only calls before a slot, so does each operation's result: a call before the slot
/// adds itself, and the other operations add none.
pub fn states_look_back()
    ensures opening { entry.OpeningLooksBack }
    ensures operands { entry.OperandsLookBack }
    ensures writes { entry.WritesLookBack }
    ensures stores { entry.StoresLookBack }
    ensures loads { entry.LoadsLookBack }
    ensures joins { entry.JoinsLookBack }
    ensures refined { entry.RefinedLooksBack }
    ensures calls { entry.CallsLookBack }
{}

/// So the state on each edge of an instruction before the slot names only calls before the slot.
pub fn edges_look_back()
    ensures jumping { entry.JumpingLooksBack }
    ensures going_on { entry.GoingOnLooksBack }
{}

/// The entry of a slot names only lookups before it.
pub fn entries_look_back()
    ensures { entry.EntriesLookBack }
{}

/// So if an entry covers a state for any results of calls, it represents the state with only the
/// results of the calls before it.
pub fn covers_are_before()
    ensures { entry.CoversAreBefore }
{}
