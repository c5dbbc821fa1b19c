//! Operands read as the kinds that their instruction requires: A3 if the kind is wrong, and A5 if a
//! number doesn't fit its field.

ghost use Rattle.std.specs.Prelude.{◌≡◌, ⊤, option_map, Option, Result};
ghost use Rattle.bpf_text.specs.Results.{map_ok};
ghost use Rattle.bpf_text.specs.Operands.{
  if_of_kind,
  has_plus,
  has_sign,
  register_given,
  imm_given,
  number_given,
  memory_given,
  short_given,
  long_given,
  item_as,
  item_if,
  is_other_kind,
  items_as,
};
ghost use Rattle.bpf_text.specs.Names.{
  item_named,
  items_named,
  given_named,
  given_if_named,
  all_given_named,
};
ghost use Rattle.bpf_text.specs.Tables.{tables};

use crate::argument::Argument;
use crate::item::{Item, Items};
use crate::range::{imm_of, long_of, short_of, wide_of};
use crate::signature::OperandKind;
use crate::text_fault::AsmFaultKind;
use crate::three::UpToThree;
use crate::token::{Figure, Sign};
use crate::vocabulary::register_named;
use bpf_insn::Distance;
use std::alloc::AllocError;

/// The meaning of an operand: an argument, or a label in place of a distance.
pub enum Given<N> {
    Argument(Argument),
    /// The label of a jump with a 16-bit distance.
    ShortTo(N),
    /// The label of a jump with a 32-bit distance.
    LongTo(N),
}

impl<N: Copy> Clone for Given<N> {
    ghost is_clone = { λ x y. y ≡ x };

    ghost is_infallible = { λ _. ⊤ };

    fn clone(&self) -> Result<Given<N>, AllocError> {
        Ok(*self)
    }
}

impl<N: Copy> Copy for Given<N> {}

type GivenOrFault<'a> = Result<Given<&'a [u8]>, AsmFaultKind>;

fn if_of_kind<'a>(is_of_kind: bool, argument: Option<Argument>) -> GivenOrFault<'a>
    ensures { map_ok given_named result ≡ if_of_kind is_of_kind argument }
{
    if !is_of_kind {
        return Err(AsmFaultKind::Operand);
    }
    match argument {
        Some(argument) => Ok(Given::Argument(argument)),
        None => Err(AsmFaultKind::Range),
    }
}

fn has_plus(figure: Figure) -> bool
    ensures { result ≡ has_plus figure.sign }
{
    match figure.sign {
        Sign::Plus => true,
        Sign::Absent | Sign::Minus => false,
    }
}

fn has_sign(figure: Figure) -> bool
    ensures { result ≡ has_sign figure.sign }
{
    match figure.sign {
        Sign::Absent => false,
        Sign::Minus | Sign::Plus => true,
    }
}

fn register_given<'a>(word: &[u8]) -> GivenOrFault<'a>
    ensures { map_ok given_named result ≡ register_given (tables.register_named word.now) }
{
    match register_named(word) {
        Some(r) => Ok(Given::Argument(Argument::Register(r))),
        None => Err(AsmFaultKind::Operand),
    }
}

fn imm_given<'a>(figure: Figure) -> GivenOrFault<'a>
    ensures { map_ok given_named result ≡ imm_given figure }
{
    let imm = imm_of(figure).map(Argument::Imm);
    if_of_kind(!has_plus(figure), imm)
}

fn number_given<'a>(figure: Figure) -> GivenOrFault<'a>
    ensures { map_ok given_named result ≡ number_given figure }
{
    let number = wide_of(figure).map(Argument::Number);
    if_of_kind(!has_plus(figure), number)
}

fn memory_given<'a>(word: &[u8], offset: Figure) -> GivenOrFault<'a>
    ensures { map_ok given_named result ≡ memory_given (tables.register_named word.now) offset }
{
    match register_named(word) {
        Some(r) => {
            let memory = short_of(offset).map(|k| Argument::Memory(r, k));
            if_of_kind(has_sign(offset), memory)
        }
        None => Err(AsmFaultKind::Operand),
    }
}

fn short_given<'a>(figure: Figure) -> GivenOrFault<'a>
    ensures { map_ok given_named result ≡ short_given figure }
{
    let distance = short_of(figure).map(|k| Argument::Distance(Distance::Short(k)));
    if_of_kind(has_sign(figure), distance)
}

fn long_given<'a>(figure: Figure) -> GivenOrFault<'a>
    ensures { map_ok given_named result ≡ long_given figure }
{
    let distance = long_of(figure).map(|k| Argument::Distance(Distance::Long(k)));
    if_of_kind(has_sign(figure), distance)
}

fn item_as<'a>(kind: OperandKind, item: Item<&'a [u8]>) -> GivenOrFault<'a>
    ensures { map_ok given_named result ≡ item_as tables kind (item_named item.entry) }
{
    match (kind, item) {
        (OperandKind::Register | OperandKind::Source, Item::Name(word)) => register_given(word),
        (OperandKind::ShortWay, Item::Name(word)) => Ok(Given::ShortTo(word)),
        (OperandKind::LongWay, Item::Name(word)) => Ok(Given::LongTo(word)),
        (OperandKind::Source | OperandKind::Imm, Item::Number(figure)) => imm_given(figure),
        (OperandKind::Number, Item::Number(figure)) => number_given(figure),
        (OperandKind::ShortWay, Item::Number(figure)) => short_given(figure),
        (OperandKind::LongWay, Item::Number(figure)) => long_given(figure),
        (OperandKind::Memory, Item::Memory(word, offset)) => memory_given(word, offset),
        _ => Err(AsmFaultKind::Operand),
    }
}

// An operand is present exactly if the kind requires one.
fn item_if<'a>(
    kind: Option<OperandKind>,
    item: Option<Item<&'a [u8]>>,
) -> Result<Option<Given<&'a [u8]>>, AsmFaultKind>
    ensures { given_if_named result ≡ item_if tables kind (option_map item_named item.entry) }
{
    match (kind, item) {
        (Some(kind), Some(item)) => Ok(Some(item_as(kind, item)?)),
        (None, None) => Ok(None),
        _ => Err(AsmFaultKind::Operand),
    }
}

fn is_other_kind(given: Result<Option<Given<&[u8]>>, AsmFaultKind>) -> bool
    ensures { result ≡ is_other_kind (given_if_named given.entry) }
{
    match given {
        Err(AsmFaultKind::Operand) => true,
        _ => false,
    }
}

/// Reads the operands as these kinds: A3 for any operand precedes A5 for another.
pub fn items_as<'a>(
    kinds: UpToThree<OperandKind>,
    items: Items<'a>,
) -> Result<UpToThree<Given<&'a [u8]>>, AsmFaultKind>
    ensures { all_given_named result ≡ items_as tables kinds (items_named items.entry) }
{
    let first = item_if(kinds.first, items.first);
    let second = item_if(kinds.second, items.second);
    let third = item_if(kinds.third, items.third);
    if is_other_kind(first) || (is_other_kind(second) || is_other_kind(third)) {
        return Err(AsmFaultKind::Operand);
    }
    Ok(UpToThree {
        first: first?,
        second: second?,
        third: third?,
    })
}
