//! From a text to its tokens, each with its line.

ghost use Rattle.std.specs.Prelude.{◌≡◌, ◌≤◌, ◌-◌, ⊤, drop, length, map, IfOk, IfErr, OnOk, Ok};
ghost use Rattle.rule_lang.specs.Lexed.{tokens_in, IsTokenFault};
ghost use Rattle.rule_lang.specs.Named.{placed_named, AddsToken};

use crate::rule_fault::{RuleFault, RuleFaultKind};
use crate::token::{Piece, Token, piece_of};
use std::alloc::{AllocError, Global};

/// A token with its line, from 1.
pub struct Placed<N> {
    pub line: usize,
    pub token: Token<N>,
}

impl<N: Copy> Clone for Placed<N> {
    ghost is_clone = { λ x y. y ≡ x };

    ghost is_infallible = { λ _. ⊤ };

    fn clone(&self) -> Result<Placed<N>, AllocError> {
        Ok(*self)
    }
}

impl<N: Copy> Copy for Placed<N> {}

// What follows a piece of `bytes` bytes, given that the first is already passed.
fn bytes_after_piece(s: &[u8], bytes: usize) -> &[u8]
    ensures is { result.now ≡ drop (bytes - 1) s.now }
    ensures within { length result.now ≤ length s.now }
{
    let more = bytes.saturating_sub(1);
    if more < s.len() { &s[more..] } else { &[] }
}

fn add<'a>(
    tokens: &mut Vec<Placed<&'a str>>,
    line: usize,
    token: Token<&'a str>,
) -> Result<(), AllocError>
    ensures { OnOk result (AddsToken tokens.old.items line token.entry tokens.new.items) }
{
    tokens.push(Placed { line, token })?;
    Ok(())
}

/// The tokens of a text of at most 65536 bytes, followed by `End`; or L1 at the first place without
/// a token.
pub fn tokens_of<'a>(alloc: Global, text: &'a [u8]) -> Result<Vec<Placed<&'a str>>, RuleFault>
    requires { length text.now ≤ 65536 }
    ensures tokens { IfOk result (λ v. tokens_in text.now ≡ Ok (map placed_named v.items)) }
    ensures fault { IfErr result (IsTokenFault text.now) }
{
    let mut tokens = Vec::new(alloc);
    let mut line = 1;
    let mut rest = text;
    while let Some((first, after)) = rest.split_first() {
        match piece_of(rest, *first, after) {
            Some(Piece::Blank(bytes)) => rest = bytes_after_piece(after, bytes),
            Some(Piece::LineEnd(bytes)) => {
                line += 1;
                rest = bytes_after_piece(after, bytes);
            }
            Some(Piece::Token(token, bytes)) => {
                add(&mut tokens, line, token)?;
                rest = bytes_after_piece(after, bytes);
            }
            None => {
                return Err(RuleFault::At {
                    line,
                    kind: RuleFaultKind::Token,
                });
            }
        }
    }
    add(&mut tokens, line, Token::End)?;
    Ok(tokens)
}
