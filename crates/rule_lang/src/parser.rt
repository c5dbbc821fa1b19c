//! From a text to its rule.

ghost use Rattle.std.specs.Prelude.{◌≡◌, true, IfOk, IfErr, Ok};
ghost use Rattle.rule_lang.specs.Fits.{fits};
ghost use Rattle.rule_lang.specs.Verdicts.{IsVerdict, IsRuleFault};

use crate::lexer::tokens_of;
use crate::reader::read;
use crate::rule::Rule;
use crate::rule_fault::{RuleFault, RuleFaultKind};
use cells::Shape;
use std::alloc::Global;

/// The most bytes of a rule's text.
pub const MOST_RULE: usize = 65536;

/// The rule that a text spells, for apps of the shape; it fits the shape. Faults, in order of
/// precedence:
///
/// - L4 at line 1: a text over 65536 bytes;
/// - L1: the first place without a token;
/// - L2: the first token with which no rule continues; the text's end is in its last line;
/// - L3 or L4: the first unknown name, or number out of range. A 33rd open `not` or parenthesis is
///   L4.
///
/// Returns L5 if an allocation fails.
// open: whether an allocation fails (L5).
pub fn parse(alloc: Global, text: &str, shape: &Shape) -> Result<Rule, RuleFault>
    ensures rule { IfOk result (λ r. IsVerdict shape.now text.now (Ok r)) }
    ensures fits { IfOk result (λ r. fits shape.now r ≡ true) }
    ensures fault { IfErr result (IsRuleFault shape.now text.now) }
{
    if text.len() > MOST_RULE {
        return Err(RuleFault::At {
            line: 1,
            kind: RuleFaultKind::Range,
        });
    }
    match tokens_of(alloc, text.as_bytes()) {
        Ok(tokens) => read(alloc, shape, tokens.as_slice()),
        Err(fault) => Err(fault),
    }
}
