//! Calls of helpers. R0 is the result, computed from R1 to R3, the shape and the attributes.

ghost use Rattle.std.specs.Prelude.{◌≡◌, ◌<◌, ◌-◌, IsSome};
ghost use Rattle.std.specs.Prelude.{Some};
ghost use Rattle.bpf_semantics.specs.Calls.{array_of};
ghost use Rattle.bpf_semantics.specs.Calls as calls;
ghost use Rattle.bpf_machine.specs.Next.{IsReady, LeadsTo};

use crate::memory::stack_bytes;
use crate::next::{Change, Next};
use crate::words::Words;
use attrs::{Attrs, helper_attr_is, helper_attr_len, helper_bucket};
use bpf_insn::Insn;
use bpf_semantics::helpers::{ATTR_IS, ATTR_LEN, LOOKUP};
use bpf_semantics::{MAP_START, cell_address};
use cells::Shape;

/// `lookup`: the address of the array's counter at a key, or 0 if the array has no such key.
#[inline]
fn lookup(shape: &Shape, map: u64, key: u64) -> u64
    requires { IsSome (array_of shape.now map) }
    ensures { calls.lookup shape.now map key ≡ Some result }
{
    let array = &shape.arrays()[(map - MAP_START) as usize];
    if key < array.length as u64 {
        cell_address(array.base as u64 + key)
    } else {
        0
    }
}

#[inline]
pub fn call(words: &Words, helper: i32, shape: &Shape, attrs: &Attrs) -> Next
    requires { IsReady shape.now attrs.now words.now (Insn.Call helper) }
    ensures { LeadsTo shape.now attrs.now words.now (Insn.Call helper) result }
{
    let value = if helper == LOOKUP {
        lookup(shape, words.registers[1], words.registers[2])
    } else if helper == ATTR_IS {
        let bytes = stack_bytes(words, words.registers[2], words.registers[3]);
        helper_attr_is(attrs, words.registers[1], bytes)
    } else if helper == ATTR_LEN {
        helper_attr_len(attrs, words.registers[1])
    } else {
        helper_bucket(attrs, words.registers[1])
    };
    Next::On {
        change: Change::Answer { value },
    }
}
