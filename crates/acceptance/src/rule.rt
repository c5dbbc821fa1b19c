//! From the text of a rule to its program.

ghost use Rattle.std.specs.Prelude.{◌≡◌, IfOk, IfErr};
ghost use Rattle.acceptance.specs.Rule as specs;
ghost use Rattle.acceptance.specs.Rule.{RefusesRule};

use crate::program_fault::RuleTextFault;
use bpf_verify::{Shape, Verified};
use rule_compile::compile;
use rule_lang::{Rule, RuleFault, RuleFaultKind, parse};
use std::alloc::Global;
use std::str;

/// The program of a rule, with the rule.
#[derive(Drop)]
pub struct RuleProgram {
    pub program: Verified,
    pub rule: Rule,
}

/// The rule that bytes spell and its program, accepted under a shape, or the fault that counts.
/// Faults are L1 to L5 of `parse`, and then C1 or C2 of `compile`. Bytes that aren't UTF-8 are L1
/// at line 1.
// open: whether an allocation fails (L5, C2).
pub fn rule_program(alloc: Global, text: &[u8], shape: &Shape) -> Result<RuleProgram, RuleTextFault>
    ensures shape { IfOk result (λ made. made.program.shape ≡ shape.now) }
    ensures program { IfOk result (specs.IsRuleProgram text.now) }
    ensures fault { IfErr result (RefusesRule text.now shape.now) }
{
    let Ok(text) = str::from_utf8(text) else {
        return Err(RuleTextFault::Text(RuleFault::At {
            line: 1,
            kind: RuleFaultKind::Token,
        }));
    };
    let rule = match parse(alloc, text, shape) {
        Ok(rule) => rule,
        Err(fault) => return Err(RuleTextFault::Text(fault)),
    };
    match compile(alloc, &rule, shape) {
        Ok(program) => {
            program.invariant_law();
            Ok(RuleProgram { program, rule })
        }
        Err(fault) => Err(RuleTextFault::Compile(fault)),
    }
}
