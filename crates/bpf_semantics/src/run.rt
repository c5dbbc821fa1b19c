//! Laws about each run.

ghost use Rattle.bpf_semantics.specs.Program.{ShapedProgram};
ghost use Rattle.bpf_semantics.specs.State.{State};
ghost use Rattle.bpf_semantics.specs.Run.{HasOneEnd, EndsOrTraps};

/// Law: on given replies a run has one list of events, one choice and one count, and a run that
/// ends doesn't trap.
pub fn one_end()
    ensures same { (p : ShapedProgram) (s : State) → HasOneEnd p s }
    ensures no_trap { (p : ShapedProgram) (s : State) → EndsOrTraps p s }
{}
