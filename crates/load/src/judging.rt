//! Judging what is kept of an app's file: it gives a program of the app's shape, or has a fault.

ghost use Rattle.std.specs.Prelude.{◌≡◌, ◌↔◌, ◌<◌, ℕ, List, length, Err, IfOk, IfErr, None, Some};
ghost use Rattle.std.specs.Prelude.{IsTrue, IsUtf8};
ghost use Rattle.cells.specs.Arrays.{AppShape};
ghost use Rattle.load.specs.JudgedApps.{IsGivenBy, IsGivenByBytes, IsGivenByKept, IsGivenByText};
ghost use Rattle.load.specs.declared.load_fault.AppFault.TheVariants.{File};
ghost use Rattle.load.specs.Kept.{IsLonger, RefusesKept};
ghost use Rattle.load.specs.Source.{RefusesBytes, RefusesFile, RefusesText};

use crate::judged::AppProgram;
use crate::load_fault::AppFault;
use acceptance::{ProgramFault, RuleProgram, RuleTextFault, accept, rule_program};
use bounded_files::KeptBytes;
use cells::Shape;
use flow_check::{FlowFault, FlowRule};
use manifest::ProgramSource;
use rule_lang::{RuleFault, RuleFaultKind};
use std::alloc::Global;

/// The program of an app and its rule, from what is kept of its file. Returns M4 if the file
/// couldn't be read. Returns M5 if its bytes aren't a program, M6 if its text isn't a rule, and M8
/// if an allocation fails. The verdict is the same for any file of which this is kept.
pub(crate) fn judge_file(
    alloc: Global,
    source: &ProgramSource,
    kept: &Option<KeptBytes>,
    shape: &Shape,
) -> Result<AppProgram, AppFault>
    ensures shape { IfOk result (λ p. p.program.shape ≡ shape.now) }
    ensures program { IfOk result (IsGivenByKept source.now kept.now) }
    ensures fault { IfErr result (RefusesKept source.now kept.now shape.now) }
    ensures unread { kept.now ≡ None → result ≡ Err File }
{
    match kept {
        Some(kept) => judge_kept(alloc, source, kept, shape),
        None => Err(AppFault::File),
    }
}

// The same for a file that could be read.
fn judge_kept(
    alloc: Global,
    source: &ProgramSource,
    kept: &KeptBytes,
    shape: &Shape,
) -> Result<AppProgram, AppFault>
    ensures shape { IfOk result (λ p. p.program.shape ≡ shape.now) }
    ensures program { IfOk result (IsGivenByKept source.now (Some kept.now)) }
    ensures fault { IfErr result (RefusesKept source.now (Some kept.now) shape.now) }
{
    match kept {
        KeptBytes::Whole(bytes) => judge_bytes(alloc, source, bytes.as_slice(), shape),
        KeptBytes::Longer { is_text, .. } => Err(too_long(source, *is_text)),
    }
}

fn judge_bytes(
    alloc: Global,
    source: &ProgramSource,
    bytes: &[u8],
    shape: &Shape,
) -> Result<AppProgram, AppFault>
    ensures shape { IfOk result (λ p. p.program.shape ≡ shape.now) }
    ensures program { IfOk result (IsGivenBy source.now bytes.now) }
    ensures fault { IfErr result (RefusesFile source.now bytes.now shape.now) }
{
    match source {
        ProgramSource::Program(_) => program_of(alloc, bytes, shape),
        ProgramSource::Rule(_) => program_of_rule(alloc, bytes, shape),
    }
}

fn program_of(alloc: Global, bytes: &[u8], shape: &Shape) -> Result<AppProgram, AppFault>
    ensures shape { IfOk result (λ p. p.program.shape ≡ shape.now) }
    ensures program { IfOk result (IsGivenByBytes bytes.now) }
    ensures fault { IfErr result (RefusesBytes bytes.now shape.now) }
{
    match accept(alloc, bytes, shape) {
        Ok(program) => Ok(AppProgram {
            program,
            rule: None,
        }),
        Err(fault) if fault.is_memory() => Err(AppFault::Memory),
        Err(fault) => Err(AppFault::Program(fault)),
    }
}

fn program_of_rule(alloc: Global, text: &[u8], shape: &Shape) -> Result<AppProgram, AppFault>
    ensures shape { IfOk result (λ p. p.program.shape ≡ shape.now) }
    ensures program { IfOk result (IsGivenByText text.now) }
    ensures fault { IfErr result (RefusesText text.now shape.now) }
{
    match rule_program(alloc, text, shape) {
        Ok(made) => {
            let RuleProgram { program, rule } = made;
            Ok(AppProgram {
                program,
                rule: Some(rule),
            })
        }
        Err(fault) if fault.is_memory() => Err(AppFault::Memory),
        Err(fault) => Err(AppFault::Rule(fault)),
    }
}

// The fault of a file that is longer than it may be, for any shape.
fn too_long(source: &ProgramSource, is_text: bool) -> AppFault
    ensures { (bytes : List ℕ) (shape : AppShape) → IsLonger source.now is_text bytes
        → RefusesFile source.now bytes shape result }
{
    match source {
        ProgramSource::Program(_) => long_program(),
        ProgramSource::Rule(_) => long_rule(is_text),
    }
}

fn long_program() -> AppFault
    ensures { (bytes : List ℕ) (shape : AppShape) → 32768 < length bytes
        → RefusesBytes bytes shape result }
{
    AppFault::Program(ProgramFault::Flow(FlowFault::Rule {
        slot: 0,
        rule: FlowRule::TooLong,
    }))
}

fn long_rule(is_text: bool) -> AppFault
    ensures { (bytes : List ℕ) (shape : AppShape) → 65536 < length bytes
        → (IsTrue is_text ↔ IsUtf8 bytes) → RefusesText bytes shape result }
{
    if is_text {
        return rule_fault(RuleFaultKind::Range);
    }
    rule_fault(RuleFaultKind::Token)
}

// A fault in the first line of a rule.
fn rule_fault(kind: RuleFaultKind) -> AppFault
    ensures { result ≡ AppFault.Rule (RuleTextFault.Text (RuleFault.At 1 kind)) }
{
    AppFault::Rule(RuleTextFault::Text(RuleFault::At { line: 1, kind }))
}
