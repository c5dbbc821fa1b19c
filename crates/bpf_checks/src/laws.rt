//! Laws about the rules. At an instruction that breaks none, a step of the machine doesn't trap,
//! and follows an edge whose abstract state represents the new state.

ghost use Rattle.bpf_checks.specs.Sound as sound;

use abs_value::{
    answers_are_kept, bytes_are_there, calls_sound, joins_sound, loads_sound, lookups_sound,
    registers_sound, results_sound, states_monotone, stores_sound, values_monotone,
};

/// Law: a step from a represented state, at an instruction that breaks no rule, is safe. It doesn't
/// trap, and it follows an edge that isn't dropped, whose abstract state represents the new state.
/// Its operation on a counter is allowed by the shape, and a choice is 0 or one of the releases.
pub fn steps_are_safe()
    ensures { sound.EveryStepIsSafe }
{
    results_sound();
    registers_sound();
    answers_are_kept();
    lookups_sound();
    calls_sound();
    stores_sound();
    loads_sound();
    bytes_are_there();
}

/// Law: a join represents all states that either side represents, and the opening state represents
/// the start of a run.
pub fn states_are_represented()
    ensures first { sound.JoinRepresentsFirst }
    ensures second { sound.JoinRepresentsSecond }
    ensures opening { sound.OpeningIsRepresented }
{
    joins_sound();
    registers_sound();
}

/// Law: if all ends in a state are in order, they are in order on each edge from it.
pub fn edges_monotone()
    ensures jumping { sound.JumpingInOrder }
    ensures going_on { sound.GoingOnInOrder }
{
    values_monotone();
    states_monotone();
}
