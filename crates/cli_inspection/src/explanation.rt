//! `explain`: a file's program with what is known before each instruction.

ghost use Rattle.std.specs.Prelude.{◌≡◌, IfOk, IfErr, Ok};
ghost use Rattle.std.specs.String.{string_bytes};
ghost use Rattle.bpf_semantics.specs.Program.{shaped};
ghost use Rattle.bpf_text.specs.Assembly.{Assembles};
ghost use Rattle.flow_check.specs.Flow.{program_bytes};
ghost use Rattle.cli_inspection.specs.Explanations.{HasExplained, IsExplainFault};
ghost use Rattle.cli_inspection.specs.Explanations.{IsExplainRefusal, IsExplanation};
ghost use Rattle.cli_inspection.specs.Explanations.{IsExplainedAs, IsRefusedFor};

use acceptance::ProgramFault;
use bounded_files::Disk;
use bpf_verify::{Refusal, Shape};
use cli_base::DeclaredShape;
use cli_programs::{ProgramToolFault, declared_shape, read_program};
use flow_check::{Flow, one_verdict};
use std::alloc::{AllocError, Global};
use why_refused_program::{Explained, explain, refused_place};

/// A program with what is known about it, and why it is refused, if a rule refuses it.
#[derive(Drop)]
pub struct ExplainedProgram {
    /// Its listing with comments.
    pub text: String,
    pub refused: Option<RefusedProgram>,
}

/// The rule that refuses a program, V1 to V14.
#[derive(Drop)]
pub struct RefusedProgram {
    pub refusal: Refusal,
    /// A line, ended by a line feed: the rule, and what is known instead of what it requires.
    pub reason: String,
}

/// The listing of a file's program, with what is known before each instruction, and the rule that
/// refuses it, if one does. Then nothing is known after the refused slot. Any other program is
/// refused like in `verify_file`, and the shape is checked before the file is read.
// open: whether an allocation fails (N3, F9, V15); what a device's files contain.
pub fn explain_file<D: Disk>(
    alloc: Global,
    disk: &D,
    path: &str,
    shape: &DeclaredShape,
) -> Result<ExplainedProgram, ProgramToolFault>
    ensures explained { IfOk result (λ e. HasExplained (D.known disk.now) path.now shape.now
        e.refused (string_bytes e.text)) }
    ensures fault { IfErr result (IsExplainRefusal (D.known disk.now) path.now shape.now) }
{
    let shape = declared_shape(alloc, shape)?;
    let bytes = match read_program(disk, path) {
        Ok(bytes) => bytes,
        Err(fault) => return Err(fault),
    };
    match explanation(alloc, &bytes, &shape) {
        Ok(explained) => Ok(explained),
        Err(fault) => Err(fault),
    }
}

// What is known about the program in these bytes.
fn explanation(
    alloc: Global,
    bytes: &[u8],
    shape: &Shape,
) -> Result<ExplainedProgram, ProgramToolFault>
    ensures explained { IfOk result
        (λ e. IsExplanation bytes.now shape.now e.refused (string_bytes e.text)) }
    ensures fault { IfErr result (λ fault. IsExplainFault shape.now fault bytes.now) }
{
    let flow = match Flow::check(alloc, bytes) {
        Ok(flow) => flow,
        Err(fault) => {
            one_verdict(bytes);
            return Err(ProgramToolFault::Program(ProgramFault::Flow(fault)));
        }
    };
    flow.invariant_law();
    match explain_flow(alloc, &flow, shape) {
        Ok(explained) => Ok(explained),
        Err(_) => Err(ProgramToolFault::Program(ProgramFault::Verify(Refusal::Memory))),
    }
}

fn explain_flow(alloc: Global, flow: &Flow, shape: &Shape) -> Result<ExplainedProgram, AllocError>
    ensures explained { IfOk result
        (λ e. IsExplainedAs flow.now shape.now e.refused (string_bytes e.text)) }
    ensures same { IfOk result
        (λ e. Assembles (string_bytes e.text) (Ok (program_bytes flow.now))) }
{
    let Explained { text, refusal } = explain(alloc, flow, shape)?;
    let refused = match refusal {
        None => None,
        Some(refusal) => Some(refused_by(alloc, flow, shape, refusal)?),
    };
    Ok(ExplainedProgram { text, refused })
}

// The refusal, with the sentence of its rule.
fn refused_by(
    alloc: Global,
    flow: &Flow,
    shape: &Shape,
    refusal: Refusal,
) -> Result<RefusedProgram, AllocError>
    ensures refusal { IfOk result (λ r. r.refusal ≡ refusal) }
    ensures reason { IfOk result (IsRefusedFor (shaped flow.now shape.now)) }
{
    let Some(place) = refused_place(alloc, flow, shape)? else {
        return Err(AllocError);
    };
    let mut reason = place.sentence;
    reason.push_str("\n")?;
    Ok(RefusedProgram { refusal, reason })
}
