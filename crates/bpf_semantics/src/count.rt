//! Laws about each step of a run.

ghost use Rattle.bpf_semantics.specs.Program.{ShapedProgram};
ghost use Rattle.bpf_semantics.specs.State.{State};
ghost use Rattle.bpf_semantics.specs.Step.{step};
ghost use Rattle.bpf_semantics.specs.Laws.{IsNext};

/// Law: a step that continues, at once or after a counter's reply, counts one instruction and keeps
/// the attributes.
pub fn counts_instructions()
    ensures { (p : ShapedProgram) (s : State) → IsNext s (step p s) }
{}
