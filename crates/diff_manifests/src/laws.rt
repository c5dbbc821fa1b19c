//! The law of comparisons, which nothing calls.

ghost use Rattle.diff_manifests.specs.NoRow.{DiffSound};

use diff_rules::runs_are_in_states;

/// Law: a machine that is in no row of an app compared by rows gets the same from both manifests,
/// and one that is in a row gets what the row says. What a server gives a machine, the rule gives
/// it in some state.
#[tactic(auto, using(crate::proofs::NoRow::diff_sound))]
pub fn diff_sound()
    ensures { DiffSound }
{
    runs_are_in_states();
}
