//! The region of an access (context, stack or a cell), and what is allowed there.

ghost use Rattle.std.specs.Prelude.{◌≡◌, ◌≤◌, ◌+◌};
ghost use Rattle.std.specs.Prelude.{IfSome};
ghost use Rattle.bpf_semantics.specs.Memory.{stack_size};
ghost use Rattle.bpf_checks.specs.Memory as memory;

use crate::access::{Access, Use};
use crate::arrays::{has_quota, origin_bits};
use abs_value::{Abs, AbsState, Origin, Places};
use bpf_semantics::{CONTEXT_SIZE, STACK_SIZE};
use cells::Shape;

/// Whether `count` bytes from each of the places, moved by the offset, are in the region.
fn lies_in(size: u16, from: Places, offset: i16, count: u16) -> bool
    requires { count ≤ 512 }
    ensures { result ≡ memory.lies_in size from.lo from.hi offset count }
{
    let first = from.lo as i64 + offset as i64;
    let end = (from.hi as i64 + count as i64) + offset as i64;
    first >= 0 && end <= size as i64
}

fn lies_in_stack(place: u16, offset: i16, count: u16) -> bool
    requires { count ≤ 512 }
    ensures { result ≡ memory.lies_in stack_size place place offset count }
{
    let places = Places {
        lo: place,
        hi: place,
    };
    lies_in(STACK_SIZE, places, offset, count)
}

/// Whether the access is to a whole cell, at its own address and with its own width.
fn is_whole_cell(shape: &Shape, access: Access, origin: Origin) -> bool
    requires { access.count ≤ 8 }
    ensures { result ≡ memory.is_whole_cell shape.now access origin }
{
    access.offset == 0
        && 8 * access.count == origin_bits(shape, origin)
        && access.how != Use::Extends
}

/// Whether a byte may be outside the region, or the access isn't to a whole cell.
pub fn is_outside(shape: &Shape, access: Access, address: Abs) -> bool
    requires { access.count ≤ 8 }
    ensures { result ≡ memory.is_outside shape.now access address }
{
    match address {
        Abs::Ctx(from) => !lies_in(CONTEXT_SIZE, from, access.offset, access.count),
        Abs::Stk { place } => !lies_in_stack(place, access.offset, access.count),
        Abs::Cell(origin) => !is_whole_cell(shape, access, origin),
        _ => false,
    }
}

pub fn changes_context(access: Access, address: Abs) -> bool
    ensures { result ≡ memory.changes_context access address }
{
    match address {
        Abs::Ctx(_) => matches!(access.how, Use::Stores | Use::Exchanges),
        _ => false,
    }
}

pub fn is_no_address(access: Access, address: Abs) -> bool
    ensures { result ≡ memory.is_no_address access address }
{
    matches!(address, Abs::Num(_) | Abs::Map { .. } | Abs::MayCell(_))
}

pub fn exchanges_stack(access: Access, address: Abs) -> bool
    ensures { result ≡ memory.exchanges_stack access address }
{
    match address {
        Abs::Stk { .. } => access.how == Use::Exchanges,
        _ => false,
    }
}

pub fn reaches_quota(shape: &Shape, access: Access, address: Abs) -> bool
    ensures { result ≡ memory.reaches_quota shape.now access address }
{
    match address {
        Abs::Cell(origin) => has_quota(shape, origin),
        _ => false,
    }
}

/// The place in the stack of `count` bytes; `None` if they aren't all in the stack.
pub fn stack_place(address: Abs, offset: i16, count: u16) -> Option<u16>
    requires { count ≤ 512 }
    ensures place { result ≡ memory.stack_place address offset count }
    ensures inside { IfSome result (λ place. place + count ≤ stack_size) }
{
    match address {
        Abs::Stk { place } if lies_in_stack(place, offset, count) => {
            Some((place as i64 + offset as i64) as u16)
        }
        _ => None,
    }
}

/// Whether the bytes are a whole slot of the stack.
pub fn is_slot(place: Option<u16>, count: u16) -> bool
    ensures { result ≡ memory.is_slot place count }
{
    match place {
        Some(place) => count == 8 && place % 8 == 0,
        None => false,
    }
}

/// Whether any of `count` bytes from an address is in the stack and unset.
pub fn meets_unset(e: &AbsState, address: Abs, offset: i16, count: u16) -> bool
    ensures { result ≡ memory.meets_unset e.now address offset count }
{
    match address {
        Abs::Stk { place } => e.has_unset(place as i64 + offset as i64, count),
        _ => false,
    }
}

/// Whether the text at `address`, of the single length `length`, has an unset byte in the stack.
pub fn text_unset(e: &AbsState, address: Abs, length: Abs) -> bool
    ensures { result ≡ memory.text_unset e.now address length }
{
    match length {
        Abs::Num(n) if n.is_single() => {
            meets_unset(e, address, 0, n.least().min(STACK_SIZE as u64) as u16)
        }
        _ => false,
    }
}
