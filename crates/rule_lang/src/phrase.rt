//! Phrases: sequences of tokens, some of them optional, such as `offer` number `;`.

ghost use Rattle.std.specs.Prelude.{◌≡◌, ◌≤◌, ◌+◌, ◌∷◌, length, List, IfOk, IfErr, Ok, Err};
ghost use Rattle.rule_lang.specs.Named.{token_named, placed_all};
ghost use Rattle.rule_lang.specs.Phrases as phrases;

use crate::keyword::{Keyword, is_modulus_word};
use crate::lexer::Placed;
use crate::rule_fault::{RuleFault, RuleFaultKind};
use crate::token::Token;

/// What a place of a phrase accepts.
#[derive(Clone, Copy)]
pub enum Want {
    Keyword(Keyword),
    Name,
    /// A name, or the word `version`.
    Attribute,
    Number,
    /// One to four numbers.
    Version,
    Text,
    Comparison,
    /// `(`, a number and `)`, or nothing.
    Salt,
    /// The name `mod` and a number, or nothing.
    Modulus,
    Semicolon,
    Comma,
    OpenBracket,
    CloseBracket,
    Open,
    Close,
    End,
}

pub static COUNT: [Want; 6] = [
    Want::Keyword(Keyword::Count),
    Want::Name,
    Want::OpenBracket,
    Want::Number,
    Want::CloseBracket,
    Want::Semicolon,
];

pub static OFFER: [Want; 3] = [Want::Keyword(Keyword::Offer), Want::Number, Want::Semicolon];

pub static OTHERWISE: [Want; 4] = [
    Want::Keyword(Keyword::Otherwise),
    Want::Keyword(Keyword::None),
    Want::Semicolon,
    Want::End,
];

/// Whether a token may come at a place, or begin it if the place is an optional part.
pub fn takes<'a>(want: Want, token: Token<&'a str>) -> bool
    ensures { result ≡ phrases.takes want (token_named token.entry) }
{
    match (want, token) {
        (Want::Keyword(keyword), Token::Keyword(other)) => keyword == other,
        (Want::Name, Token::Name(_)) => true,
        (Want::Attribute, Token::Name(_)) => true,
        (Want::Attribute, Token::Keyword(keyword)) => keyword == Keyword::Version,
        (Want::Number, Token::Number(_)) => true,
        (Want::Version, Token::Number(_) | Token::Version(_)) => true,
        (Want::Text, Token::Text(_)) => true,
        (Want::Comparison, Token::Comparison(_)) => true,
        (Want::Salt, Token::Open) => true,
        (Want::Modulus, Token::Name(name)) => is_modulus_word(name),
        (Want::Semicolon, Token::Semicolon) => true,
        (Want::Comma, Token::Comma) => true,
        (Want::OpenBracket, Token::OpenBracket) => true,
        (Want::CloseBracket, Token::CloseBracket) => true,
        (Want::Open, Token::Open) => true,
        (Want::Close, Token::Close) => true,
        (Want::End, Token::End) => true,
        _ => false,
    }
}

/// The fault of a token with which no rule continues.
pub fn misplaced<'a>(placed: Placed<&'a str>) -> RuleFault
    ensures { result ≡ phrases.misplaced placed.entry.line }
{
    RuleFault::At {
        line: placed.line,
        kind: RuleFaultKind::Shape,
    }
}

/// The fault if no token is left, not even `End`; no phrase continues after `End`.
pub fn ended() -> RuleFault
    ensures { result ≡ phrases.misplaced 0 }
{
    RuleFault::At {
        line: 0,
        kind: RuleFaultKind::Shape,
    }
}

// The tokens after one that is accepted; or L2 at another token.
fn after_one<'t, 'a>(
    want: Want,
    tokens: &'t [Placed<&'a str>],
) -> Result<&'t [Placed<&'a str>], RuleFault>
    ensures rest { IfOk result
        (λ rest. (p : phrases.Phrase) → phrases.tokens_after (phrases.Needs want p)
        (placed_all tokens.now) ≡ phrases.tokens_after p (placed_all rest.now)) }
    ensures shorter { IfOk result (λ rest. length rest.now + 1 ≤ length tokens.now) }
    ensures fault { IfErr result
        (λ e. (p : phrases.Phrase) → phrases.tokens_after (phrases.Needs want p)
        (placed_all tokens.now) ≡ Err e) }
{
    let [placed, after @ ..] = tokens else {
        return Err(ended());
    };
    if takes(want, placed.token) {
        Ok(after)
    } else {
        Err(misplaced(*placed))
    }
}

// The tokens after `(`, a number and `)`, or all tokens if the first isn't `(`.
fn after_salt<'t, 'a>(tokens: &'t [Placed<&'a str>]) -> Result<&'t [Placed<&'a str>], RuleFault>
    ensures rest { IfOk result (λ rest. (ws : List Want) → phrases.tokens_after (phrases.phrase_of
        (Want.Salt ∷ ws)) (placed_all tokens.now) ≡ phrases.tokens_after (phrases.phrase_of ws)
        (placed_all rest.now)) }
    ensures shorter { IfOk result (λ rest. length rest.now ≤ length tokens.now) }
    ensures fault { IfErr result (λ e. (ws : List Want) → phrases.tokens_after (phrases.phrase_of
        (Want.Salt ∷ ws)) (placed_all tokens.now) ≡ Err e) }
{
    let [open, inside @ ..] = tokens else {
        return Err(ended());
    };
    if !takes(Want::Salt, open.token) {
        return Ok(tokens);
    }
    let [number, more @ ..] = inside else {
        return Err(ended());
    };
    if !takes(Want::Number, number.token) {
        return Err(misplaced(*number));
    }
    let [close, rest @ ..] = more else {
        return Err(ended());
    };
    if !takes(Want::Close, close.token) {
        return Err(misplaced(*close));
    }
    Ok(rest)
}

// The tokens after `mod` and a number, or all tokens if the first isn't `mod`.
fn after_modulus<'t, 'a>(tokens: &'t [Placed<&'a str>]) -> Result<&'t [Placed<&'a str>], RuleFault>
    ensures rest { IfOk result (λ rest. (ws : List Want) → phrases.tokens_after (phrases.phrase_of
        (Want.Modulus ∷ ws)) (placed_all tokens.now) ≡ phrases.tokens_after (phrases.phrase_of ws)
        (placed_all rest.now)) }
    ensures shorter { IfOk result (λ rest. length rest.now ≤ length tokens.now) }
    ensures fault { IfErr result (λ e. (ws : List Want) → phrases.tokens_after (phrases.phrase_of
        (Want.Modulus ∷ ws)) (placed_all tokens.now) ≡ Err e) }
{
    let [word, more @ ..] = tokens else {
        return Err(ended());
    };
    if !takes(Want::Modulus, word.token) {
        return Ok(tokens);
    }
    let [number, rest @ ..] = more else {
        return Err(ended());
    };
    if !takes(Want::Number, number.token) {
        return Err(misplaced(*number));
    }
    Ok(rest)
}

// The tokens after one place of a phrase.
fn after_place<'t, 'a>(
    want: Want,
    tokens: &'t [Placed<&'a str>],
) -> Result<&'t [Placed<&'a str>], RuleFault>
    ensures rest { IfOk result (λ rest. (ws : List Want) → phrases.tokens_after (phrases.phrase_of
        (want ∷ ws)) (placed_all tokens.now) ≡ phrases.tokens_after (phrases.phrase_of ws)
        (placed_all rest.now)) }
    ensures shorter { IfOk result (λ rest. length rest.now + phrases.fewest_at want
        ≤ length tokens.now) }
    ensures fault { IfErr result (λ e. (ws : List Want) → phrases.tokens_after (phrases.phrase_of
        (want ∷ ws)) (placed_all tokens.now) ≡ Err e) }
{
    match want {
        Want::Salt => after_salt(tokens),
        Want::Modulus => after_modulus(tokens),
        want => after_one(want, tokens),
    }
}

/// The tokens after a phrase, or L2 at the first token that doesn't belong to it. It recurses once
/// for each place of the phrase.
pub fn tokens_after<'t, 'a>(
    wants: &[Want],
    tokens: &'t [Placed<&'a str>],
) -> Result<&'t [Placed<&'a str>], RuleFault>
    ensures rest { IfOk result
        (λ rest. phrases.tokens_after (phrases.phrase_of wants.now) (placed_all
        tokens.now) ≡ Ok (placed_all rest.now)) }
    ensures shorter { IfOk result (λ rest. length rest.now + phrases.fewest wants.now
        ≤ length tokens.now) }
    ensures fault { IfErr result
        (λ e. phrases.tokens_after (phrases.phrase_of wants.now) (placed_all
        tokens.now) ≡ Err e) }
{
    let [want, more @ ..] = wants else {
        return Ok(tokens);
    };
    tokens_after(more, after_place(*want, tokens)?)
}
