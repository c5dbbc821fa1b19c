//! The results of helpers, and the values of wide loads of maps and counters.

ghost use Rattle.std.specs.Prelude.{◌≡◌};
ghost use Rattle.bpf_semantics.specs.Calls as calls;
ghost use Rattle.reference.specs.Marks.{state_of};

use crate::state::Interpreter;
use attrs::{helper_attr_len, helper_bucket};
use bpf_insn::{Reg, WideValue};
use bpf_semantics::helpers::Helper;
use bpf_semantics::{MAP_START, add_long_offset, cell_address};
use cells::Shape;

/// A number, map i, or the address of the first counter of array i plus an offset.
pub fn wide_value(shape: &Shape, value: WideValue) -> Option<u64>
    ensures { result ≡ calls.wide_value shape.now value }
{
    match value {
        WideValue::Number(number) => Some(number),
        WideValue::Map(map) => {
            let map = usize::try_from(map).ok()?;
            let _array = shape.arrays().get(map)?;
            Some(MAP_START + map as u64)
        }
        WideValue::Cell { array, offset } => {
            let array = shape.arrays().get(usize::try_from(array).ok()?)?;
            Some(add_long_offset(cell_address(array.base as u64), offset))
        }
    }
}

/// `lookup`: the address of the counter of map i at a key, or 0 past its array.
fn lookup(shape: &Shape, map: u64, key: u64) -> Option<u64>
    ensures { result ≡ calls.lookup shape.now map key }
{
    let map = map.checked_sub(MAP_START)?;
    let array = shape.arrays().get(map as usize)?;
    if key < array.length as u64 {
        Some(cell_address(array.base as u64 + key))
    } else {
        Some(0)
    }
}

impl Interpreter {
    /// R0 after a call; `None` if no helper has the number.
    pub(crate) fn helper_result(&self, shape: &Shape, helper: i32) -> Option<u64>
        ensures { result ≡ calls.helper_result shape.now (state_of self.now) helper }
    {
        match Helper::of(helper) {
            Some(known) => self.known_result(shape, known),
            None => None,
        }
    }

    fn known_result(&self, shape: &Shape, helper: Helper) -> Option<u64>
        ensures { result ≡ calls.known_result shape.now (state_of self.now) helper }
    {
        match helper {
            Helper::Lookup => lookup(shape, self.register(Reg::R1)?, self.register(Reg::R2)?),
            Helper::AttrIs => {
                let number = self.register(Reg::R1)?;
                let address = self.register(Reg::R2)?;
                self.compared(number, address, self.register(Reg::R3)?)
            }
            Helper::AttrLen => Some(helper_attr_len(self.attrs(), self.register(Reg::R1)?)),
            Helper::Bucket => Some(helper_bucket(self.attrs(), self.register(Reg::R1)?)),
        }
    }
}
