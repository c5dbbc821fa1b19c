//! Words stay words: no step of a run makes a number that doesn't fit its register or byte.

ghost use Rattle.attrs.specs.Attributes.{Attributes};
ghost use Rattle.bpf_semantics.specs.Laws.{OpensWithWords, KeepsWords};
ghost use Rattle.bpf_semantics.specs.Program.{ShapedProgram};
ghost use Rattle.bpf_semantics.specs.State.{State};

use bpf_insn::results_fit;

/// Law: a run begins with registers below 2^64 and no byte of the stack set. For a program whose
/// numbers fit their fields, each step keeps set registers below 2^64 and set bytes below 256, for
/// each reply that fits its counter. A run's choice is below 2^64.
// open: the result for a program whose arrays aren't those of a `Shape`.
pub fn words_stay()
    ensures opens { (a : Attributes) → OpensWithWords a }
    ensures keeps { (p : ShapedProgram) (s : State) → KeepsWords p s }
{
    results_fit();
}
