//! The operands after a mnemonic: names, numbers and memory, separated by commas.

ghost use Rattle.std.specs.Prelude.{◌≡◌, ◌∷◌, option_map};
ghost use Rattle.bpf_text.specs.declared.token.AsmToken.TheVariants.{Open};
ghost use Rattle.bpf_text.specs.Items.{item_at_front, item_after_comma, at_end, items_of};
ghost use Rattle.bpf_text.specs.Names.{
  tokens_named,
  items_named,
  items_if_named,
  front_named,
  after_named,
};

use crate::three::{UpToThree, none};
use crate::token::{AsmToken, Figure, Sign};

/// One operand, as written.
#[derive(Drop)]
pub enum Item<N> {
    /// A register or a label.
    Name(N),
    Number(Figure),
    /// A name in brackets, with an offset; +0 if none is written.
    Memory(N, Figure),
}

/// The operands, in order.
pub type Items<'a> = UpToThree<Item<&'a [u8]>>;

type Tokens<'t, 'a> = &'t [AsmToken<&'a [u8]>];

// The rest of a memory operand, after `[`.
fn memory_behind<'a, 't>(tokens: Tokens<'t, 'a>) -> Option<(Item<&'a [u8]>, Tokens<'t, 'a>)>
    ensures { option_map front_named result ≡ item_at_front (Open ∷ tokens_named tokens.now) }
{
    match tokens {
        [AsmToken::Word(word), AsmToken::Close, rest @ ..] => {
            let none = Figure {
                sign: Sign::Plus,
                magnitude: Some(0),
            };
            Some((Item::Memory(word, none), rest))
        }
        [
            AsmToken::Word(word),
            AsmToken::Number(n),
            AsmToken::Close,
            rest @ ..,
        ] => Some((Item::Memory(word, *n), rest)),
        _ => None,
    }
}

fn item_at_front<'a, 't>(tokens: Tokens<'t, 'a>) -> Option<(Item<&'a [u8]>, Tokens<'t, 'a>)>
    ensures { option_map front_named result ≡ item_at_front (tokens_named tokens.now) }
{
    match tokens {
        [AsmToken::Word(word), rest @ ..] => Some((Item::Name(word), rest)),
        [AsmToken::Number(n), rest @ ..] => Some((Item::Number(*n), rest)),
        [AsmToken::Open, rest @ ..] => memory_behind(rest),
        _ => None,
    }
}

fn item_after_comma<'a, 't>(
    tokens: Tokens<'t, 'a>,
) -> Option<(Option<Item<&'a [u8]>>, Tokens<'t, 'a>)>
    ensures { option_map after_named result ≡ item_after_comma (tokens_named tokens.now) }
{
    match tokens {
        [] => Some((None, tokens)),
        [AsmToken::Comma, rest @ ..] => {
            let (item, rest) = item_at_front(rest)?;
            Some((Some(item), rest))
        }
        _ => None,
    }
}

fn at_end<'a>(items: Items<'a>, rest: &[AsmToken<&'a [u8]>]) -> Option<Items<'a>>
    ensures { items_if_named result ≡ at_end (items_named items.entry) (tokens_named rest.now) }
{
    match rest {
        [] => Some(items),
        _ => None,
    }
}

/// The operands that tokens spell, or `None` if they spell none.
pub fn items_of<'a>(tokens: &[AsmToken<&'a [u8]>]) -> Option<Items<'a>>
    ensures { items_if_named result ≡ items_of (tokens_named tokens.now) }
{
    if tokens.is_empty() {
        return Some(none());
    }
    let (first, rest) = item_at_front(tokens)?;
    let (second, rest) = item_after_comma(rest)?;
    let (third, rest) = item_after_comma(rest)?;
    at_end(
        UpToThree {
            first: Some(first),
            second,
            third,
        },
        rest,
    )
}
