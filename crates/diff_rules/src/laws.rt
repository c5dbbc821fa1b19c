//! A law of the definitions, which nothing calls here.

ghost use Rattle.diff_rules.specs.Replies as specs;

/// Law: a run on a server chooses what its machine gets in some state. This holds if the replies of
/// each cell with a quota rise along the run, and none is below the value that is given for the
/// cell. The state grants exactly the takes that the replies grant.
pub fn runs_are_in_states()
    ensures { specs.RunsAreInStates }
{}
