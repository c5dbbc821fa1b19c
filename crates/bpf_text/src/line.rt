//! The content of a line: an optional label, and an optional instruction or a fault instead.

ghost use Rattle.std.specs.Prelude.{◌≡◌, ◌==◌, ◌∷◌, ◌<◌, ◌≤◌, length, IfOk};
ghost use Rattle.std.specs.Str.Lines.{lines, strip_carriage_return};
ghost use Rattle.std.specs.List.{position_or_len};
ghost use Rattle.bpf_text.specs.Lines.{
  body_of,
  split_label,
  line_of_tokens,
  line_if_tokens,
  read_line,
};
ghost use Rattle.bpf_text.specs.Names.{tokens_named, body_named, split_named, line_named};
ghost use Rattle.bpf_text.specs.Tables.{tables};
ghost use Rattle.bpf_text.specs.declared.token.AsmToken.TheVariants.{Word};

use crate::item::items_of;
use crate::mnemonic::Mnemonic;
use crate::operand::{Given, items_as};
use crate::signature::kinds_of;
use crate::text_fault::AsmFaultKind;
use crate::three::UpToThree;
use crate::token::{AsmToken, read_tokens};
use crate::vocabulary::mnemonic_named;
use std::alloc::AllocError;

/// An instruction as a line states it: its mnemonic, and arguments in which a label may replace a
/// distance.
#[derive(Drop)]
pub struct AsmStatement<N> {
    pub mnemonic: Mnemonic,
    pub arguments: UpToThree<Given<N>>,
}

/// The content of a line: a label, and a statement, nothing or a fault.
#[derive(Drop)]
pub struct Line<N> {
    pub label: Option<N>,
    pub body: Result<Option<AsmStatement<N>>, AsmFaultKind>,
}

type Body<'a> = Result<Option<AsmStatement<&'a [u8]>>, AsmFaultKind>;

// The statement of a word and the tokens after it.
fn statement_of<'a>(word: &'a [u8], rest: &[AsmToken<&'a [u8]>]) -> Body<'a>
    ensures { body_named result ≡ body_of tables (Word word.now ∷ tokens_named rest.now) }
{
    let Some(mnemonic) = mnemonic_named(word) else {
        return Err(AsmFaultKind::Mnemonic);
    };
    let Some(items) = items_of(rest) else {
        return Err(AsmFaultKind::Operand);
    };
    let arguments = items_as(kinds_of(mnemonic), items)?;
    Ok(Some(AsmStatement {
        mnemonic,
        arguments,
    }))
}

fn body_of<'a>(tokens: &[AsmToken<&'a [u8]>]) -> Body<'a>
    ensures { body_named result ≡ body_of tables (tokens_named tokens.now) }
{
    match tokens {
        [] => Ok(None),
        [AsmToken::Word(word), rest @ ..] => statement_of(word, rest),
        _ => Err(AsmFaultKind::Mnemonic),
    }
}

// The label at the front, and the tokens after it.
fn split_label<'a, 't>(
    tokens: &'t [AsmToken<&'a [u8]>],
) -> (Option<&'a [u8]>, &'t [AsmToken<&'a [u8]>])
    ensures { split_named result ≡ split_label (tokens_named tokens.now) }
{
    match tokens {
        [AsmToken::Word(word), AsmToken::Colon, rest @ ..] => (Some(word), rest),
        _ => (None, tokens),
    }
}

fn line_of_tokens<'a>(tokens: &[AsmToken<&'a [u8]>]) -> Line<&'a [u8]>
    ensures { line_named result ≡ line_of_tokens tables (tokens_named tokens.now) }
{
    let (label, rest) = split_label(tokens);
    Line {
        label,
        body: body_of(rest),
    }
}

/// Reads a line. `tokens` is a buffer for its tokens.
#[tactic(auto, unfolding(crate::specs::Lines::read_line))]
pub fn read_line<'a>(
    tokens: &mut Vec<AsmToken<&'a [u8]>>,
    line: &'a [u8],
) -> Result<Line<&'a [u8]>, AllocError>
    ensures { IfOk result (λ l. line_named l ≡ read_line tables line.now) }
{
    if read_tokens(tokens, line)? {
        Ok(line_of_tokens(tokens.as_slice()))
    } else {
        Ok(Line {
            label: None,
            body: Err(AsmFaultKind::Token),
        })
    }
}

fn without_return(line: &[u8]) -> &[u8]
    ensures { result.now ≡ strip_carriage_return line.now }
{
    if !line.is_empty() && line[line.len() - 1] == b'\r' {
        &line[..line.len() - 1]
    } else {
        line
    }
}

fn line_length(text: &[u8]) -> usize
    ensures is { result ≡ position_or_len (λ b. b == 10) text.now }
    ensures within { result ≤ length text.now }
{
    let mut n = 0;
    while n < text.len() && text[n] != b'\n' {
        n += 1;
    }
    n
}

/// The first line of a text, and the text after it.
pub fn split_line(text: &[u8]) -> (&[u8], &[u8])
    requires { 0 < length text.now }
    ensures lines { lines text.now ≡ result.0.now ∷ lines result.1.now }
    ensures shorter { length result.1.now < length text.now }
{
    let n = line_length(text);
    if n < text.len() {
        (without_return(&text[..n]), &text[n + 1..])
    } else {
        (text, &text[n..])
    }
}
