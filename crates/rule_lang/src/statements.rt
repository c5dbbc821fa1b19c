//! The phrases of a statement: `count`, or the start of `when` or `otherwise`.

ghost use Rattle.std.specs.Prelude.{◌≡◌, ◌<◌, length, IfOk, IfErr, Ok};
ghost use Rattle.rule_lang.specs.Named.{token_named, placed_all, draft_as_lists};
ghost use Rattle.rule_lang.specs.Reader.Reading as reading;
ghost use Rattle.rule_lang.specs.Values as spelled;
ghost use Rattle.rule_lang.specs.Reader.Results.{IsFaultOf, ReadsTo, Makes};

use crate::draft::{Draft, Mode, add, note};
use crate::frame::Frames;
use crate::keyword::Keyword;
use crate::lexer::Placed;
use crate::part::{array, index, part};
use crate::pending;
use crate::phrase::{COUNT, OTHERWISE, misplaced, tokens_after};
use crate::rule::Statement;
use crate::rule_fault::RuleFault;
use crate::token::Token;
use cells::{ArrayName, Shape};
use std::alloc::Global;

fn count_of<'a>(
    alloc: Global,
    shape: &Shape,
    tokens: &[Placed<&'a str>],
) -> Result<Statement, RuleFault>
    ensures statement { IfOk result (λ s. spelled.count_of shape.now (placed_all tokens.now) ≡ Ok
        s) }
    ensures fault { IfErr result (IsFaultOf (spelled.count_of shape.now (placed_all tokens.now))) }
{
    let array = array(shape, false, part(tokens, 1))?;
    let index = index(array, part(tokens, 3))?;
    let array = ArrayName::of(alloc, array.name.as_str())?;
    Ok(Statement::Count { array, index })
}

// Reads `count`.
fn read_count<'a>(
    alloc: Global,
    shape: &Shape,
    draft: &mut Draft,
    tokens: &[Placed<&'a str>],
) -> Result<(), RuleFault>
    ensures { Makes result (draft_as_lists draft.new) (reading.counted (spelled.count_of shape.now
        (placed_all tokens.now)) (draft_as_lists draft.old)) }
{
    match count_of(alloc, shape, tokens) {
        Ok(statement) => Ok(add(draft, statement)?),
        Err(RuleFault::Memory) => Err(RuleFault::Memory),
        Err(fault) => {
            note(draft, fault);
            Ok(())
        }
    }
}

/// Reads the phrase, and returns the tokens after it.
pub fn read_statement<'t, 'a>(
    alloc: Global,
    shape: &Shape,
    draft: &mut Draft,
    first: Placed<&'a str>,
    tokens: &'t [Placed<&'a str>],
    after: &'t [Placed<&'a str>],
) -> Result<&'t [Placed<&'a str>], RuleFault>
    requires { length after.now < length tokens.now }
    ensures next { ReadsTo result (draft_as_lists draft.new) (reading.statement_next shape.now
        (draft_as_lists draft.old) (token_named first.entry.token) first.entry.line (placed_all
        tokens.now) (placed_all after.now)) }
    ensures shorter { IfOk result (λ rest. length rest.now < length tokens.now) }
{
    match first.token {
        Token::Keyword(Keyword::Count) => {
            let rest = tokens_after(&COUNT, tokens)?;
            read_count(alloc, shape, draft, tokens)?;
            Ok(rest)
        }
        Token::Keyword(Keyword::When) => {
            pending::begin(&mut draft.condition, Frames::new(alloc));
            draft.mode = Mode::Fact;
            Ok(after)
        }
        Token::Keyword(Keyword::Otherwise) => {
            let rest = tokens_after(&OTHERWISE, tokens)?;
            draft.mode = Mode::Done;
            Ok(rest)
        }
        _ => Err(misplaced(first)),
    }
}
