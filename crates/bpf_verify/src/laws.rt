//! Laws about all programs: none has two verdicts, and the ends of each abstract value in a
//! register or a stack slot are in order.

ghost use Rattle.bpf_insn.specs.Program.{Program};
ghost use Rattle.bpf_semantics.specs.Program.{ShapedProgram};
ghost use Rattle.cells.specs.Arrays.{AppShape};
ghost use Rattle.bpf_verify.specs.Accepted.{ProgramHasOneVerdict, HasEndsInOrder};

use abs_value::states_monotone;
use bpf_checks::edges_monotone;

/// Law: under a shape, a program is accepted, or refused at one slot by one rule.
pub fn one_verdict()
    ensures { (p : Program) (shape : AppShape) → ProgramHasOneVerdict p shape }
{}

/// Law: the ends of all abstract values before an instruction are in order.
pub fn ends_monotone()
    ensures { (p : ShapedProgram) → HasEndsInOrder p }
{
    states_monotone();
    edges_monotone();
}
