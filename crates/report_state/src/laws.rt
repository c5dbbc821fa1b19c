//! Laws of states, by the definitions only.

ghost use Rattle.std.specs.Prelude.{List};
ghost use Rattle.report_state.specs.Laws.{CountsContinue};
ghost use Rattle.report_state.specs.Places.{KeepsApart, LogPlace};

/// Law. A report that continues a saved one counts what one report on all lines counts.
pub fn counts_continue()
    ensures { CountsContinue }
{}

/// Law. Places that no step changes are kept, and those that two steps keep are kept by both.
pub fn keeping_is_transitive()
    ensures none { (places : List LogPlace) → KeepsApart places places }
    ensures both { (a b c : List LogPlace) → KeepsApart a b → KeepsApart b c → KeepsApart a c }
{}
