//! Reading a rule, phrase by phrase. A condition's nesting is kept as a list of frames, so nothing
//! here recurses on the text.

ghost use Rattle.std.specs.Prelude.{◌≡◌, ◌<◌, length, IfOk, ◌≤◌, IfErr, None, Ok};
ghost use Rattle.rule_lang.specs.Named.{token_named, placed_named, placed_all, pending_as_lists};
ghost use Rattle.rule_lang.specs.Named.{draft_as_lists};
ghost use Rattle.rule_lang.specs.Parts as parts;
ghost use Rattle.rule_lang.specs.Parts.{out_of_range as out_of};
ghost use Rattle.rule_lang.specs.Reader.Reading as reading;
ghost use Rattle.rule_lang.specs.Tests as tests;
ghost use Rattle.rule_lang.specs.Reader.ReadsOne.{ReadsOne};
ghost use Rattle.rule_lang.specs.Reader.Results.{IsReadFault, ReadsTo, Makes};
ghost use Rattle.rule_lang.specs.Reader.Sound.{IsSound, IsSoundAfter};
ghost use Rattle.rule_lang.specs.Trees.{IsCondition};

use crate::condition::Step;
use crate::draft::{Draft, Mode, add_when, first_draft, note, note_if};
use crate::keyword::Keyword;
use crate::lexer::Placed;
use crate::part::{out_of_range, part, release};
use crate::pending::{self, MOST_DEPTH};
use crate::phrase::{OFFER, ended, misplaced, tokens_after};
use crate::rule::Rule;
use crate::rule_fault::RuleFault;
use crate::statements::read_statement;
use crate::test_reader::test_of;
use crate::test_table::{TestKind, kind_of, wants_of};
use crate::token::Token;
use cells::Shape;
use std::alloc::Global;

// Checks the depth of `not` or `(`, of which 32 may be open.
fn read_opener<'a>(draft: &mut Draft, first: Placed<&'a str>)
    ensures { draft_as_lists draft.new ≡ reading.with_fault_if (reading.too_deep (draft_as_lists
        draft.old)) (out_of (placed_named first.entry)) (draft_as_lists draft.old) }
{
    let too_deep = draft.condition.depth >= MOST_DEPTH;
    note_if(draft, too_deep, out_of_range(first));
}

// Reads a test.
fn read_test<'a>(
    alloc: Global,
    shape: &Shape,
    draft: &mut Draft,
    kind: TestKind,
    line: usize,
    tokens: &[Placed<&'a str>],
) -> Result<(), RuleFault>
    ensures { Makes result (draft_as_lists draft.new)
        (reading.with_test line ((tests.row kind).spelled
        shape.now (placed_all tokens.now)) (draft_as_lists draft.old)) }
{
    match test_of(alloc, shape, kind, tokens) {
        Ok(test) => {
            pending::test(&mut draft.condition, Step::Test { line, test })?;
            Ok(())
        }
        Err(RuleFault::Memory) => Err(RuleFault::Memory),
        Err(fault) => {
            note(draft, fault);
            Ok(())
        }
    }
}

// Reads one phrase when a fact is expected.
fn read_fact<'t, 'a>(
    alloc: Global,
    shape: &Shape,
    draft: &mut Draft,
    first: Placed<&'a str>,
    tokens: &'t [Placed<&'a str>],
    after: &'t [Placed<&'a str>],
) -> Result<&'t [Placed<&'a str>], RuleFault>
    requires { length after.now < length tokens.now }
    ensures next { ReadsTo result (draft_as_lists draft.new)
        (reading.fact_next shape.now (draft_as_lists
        draft.old) (token_named first.entry.token) (placed_named first.entry) (placed_all
        tokens.now) (placed_all after.now)) }
    ensures shorter { IfOk result (λ rest. length rest.now < length tokens.now) }
{
    match first.token {
        Token::Keyword(Keyword::Not) => {
            read_opener(draft, first);
            pending::deny(&mut draft.condition);
            Ok(after)
        }
        Token::Open => {
            read_opener(draft, first);
            pending::open(&mut draft.condition)?;
            Ok(after)
        }
        token => {
            let Some(kind) = kind_of(token) else {
                return Err(misplaced(first));
            };
            let rest = tokens_after(wants_of(kind), tokens)?;
            read_test(alloc, shape, draft, kind, first.line, tokens)?;
            draft.mode = Mode::Operator;
            Ok(rest)
        }
    }
}

// Reads the release after `offer`.
fn read_offer<'a>(
    alloc: Global,
    shape: &Shape,
    draft: &mut Draft,
    tokens: &[Placed<&'a str>],
) -> Result<(), RuleFault>
    requires { draft.old.noted ≡ None → IsCondition draft.old.condition.steps.items }
    ensures { Makes result (draft_as_lists draft.new) (reading.offered (parts.release shape.now
        (parts.part (placed_all tokens.now) 1)) (draft_as_lists draft.old)) }
{
    match release(shape, part(tokens, 1)) {
        Ok(release) => Ok(add_when(alloc, draft, release)?),
        Err(fault) => {
            note(draft, fault);
            Ok(())
        }
    }
}

// Reads one phrase after a fact.
fn read_operator<'t, 'a>(
    alloc: Global,
    shape: &Shape,
    draft: &mut Draft,
    first: Placed<&'a str>,
    tokens: &'t [Placed<&'a str>],
    after: &'t [Placed<&'a str>],
) -> Result<&'t [Placed<&'a str>], RuleFault>
    requires shorter { length after.now < length tokens.now }
    requires sound { draft.old.noted ≡ None → IsSoundAfter (pending_as_lists draft.old.condition) }
    ensures next { ReadsTo result (draft_as_lists draft.new) (reading.operator_next shape.now
        (draft_as_lists draft.old) (token_named first.entry.token) first.entry.line (placed_all
        tokens.now) (placed_all after.now)) }
    ensures shorter { IfOk result (λ rest. length rest.now < length tokens.now) }
{
    match first.token {
        Token::Keyword(Keyword::And) => {
            pending::join(&mut draft.condition);
            draft.mode = Mode::Fact;
            Ok(after)
        }
        Token::Keyword(Keyword::Or) => {
            pending::part(&mut draft.condition)?;
            draft.mode = Mode::Fact;
            Ok(after)
        }
        Token::Close => {
            if pending::close(&mut draft.condition)? {
                Ok(after)
            } else {
                Err(misplaced(first))
            }
        }
        Token::Keyword(Keyword::Offer) => {
            if !pending::end(&mut draft.condition)? {
                return Err(misplaced(first));
            }
            let rest = tokens_after(&OFFER, tokens)?;
            read_offer(alloc, shape, draft, tokens)?;
            draft.mode = Mode::Statement;
            Ok(rest)
        }
        _ => Err(misplaced(first)),
    }
}

// Reads one phrase.
#[tactic(auto, unfolding(crate::specs::Reader::Reading::next))]
fn read_next<'t, 'a>(
    alloc: Global,
    shape: &Shape,
    draft: &mut Draft,
    tokens: &'t [Placed<&'a str>],
) -> Result<&'t [Placed<&'a str>], RuleFault>
    requires { IsSound (draft_as_lists draft.old) }
    ensures next { ReadsTo result (draft_as_lists draft.new) (reading.next shape.now (draft_as_lists
        draft.old) (placed_all tokens.now)) }
    ensures shorter { IfOk result (λ rest. length rest.now < length tokens.now) }
{
    let [first, after @ ..] = tokens else {
        return Err(ended());
    };
    match draft.mode {
        Mode::Statement => read_statement(alloc, shape, draft, *first, tokens, after),
        Mode::Fact => read_fact(alloc, shape, draft, *first, tokens, after),
        Mode::Operator => read_operator(alloc, shape, draft, *first, tokens, after),
        Mode::Done => Err(misplaced(*first)),
    }
}

// Reads one phrase at a place, and returns the place after it.
fn advance<'a>(
    alloc: Global,
    shape: &Shape,
    draft: &mut Draft,
    tokens: &[Placed<&'a str>],
    place: usize,
) -> Result<usize, RuleFault>
    requires within { place ≤ length tokens.now }
    requires sound { IsSound (draft_as_lists draft.old) }
    ensures next { ReadsOne result shape.now (draft_as_lists draft.old) (draft_as_lists draft.new)
        (placed_all tokens.now) place }
    ensures further { IfOk result (λ p. (place < p) × (p ≤ length tokens.now)) }
{
    let (_, rest) = tokens.split_at(place);
    let left = read_next(alloc, shape, draft, rest)?;
    Ok(tokens.len() - left.len())
}

fn is_done(mode: Mode) -> bool
    ensures { result ≡ reading.is_done mode }
{
    match mode {
        Mode::Done => true,
        _ => false,
    }
}

/// The rule of a text's tokens; or its first L2, else its first L3 or L4.
pub fn read<'a>(alloc: Global, shape: &Shape, tokens: &[Placed<&'a str>]) -> Result<Rule, RuleFault>
    ensures rule { IfOk result (λ r. reading.Reads shape.now reading.first_draft (placed_all
        tokens.now) (Ok r)) }
    ensures fault { IfErr result (IsReadFault shape.now (placed_all tokens.now)) }
{
    let mut draft = first_draft(alloc);
    let mut place = 0;
    while !is_done(draft.mode) {
        match advance(alloc, shape, &mut draft, tokens, place) {
            Ok(after) => place = after,
            Err(fault) => return Err(fault),
        }
    }
    match draft.noted {
        Some(fault) => Err(fault),
        None => Ok(Rule::of(draft.statements)),
    }
}
