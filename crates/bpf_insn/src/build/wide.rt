//! A wide load, from its two halves.

ghost use Rattle.std.specs.Prelude.{◌≡◌, Some};
ghost use Rattle.bpf_insn.specs.declared.operand.WideValue.{WideValue};
ghost use Rattle.bpf_insn.specs.declared.form.Form.{Form};
ghost use Rattle.bpf_insn.specs.Faults.{IsSecondHalf};
ghost use Rattle.bpf_insn.specs.Halves.{IsInOrder, IsTheInsn};
ghost use Rattle.bpf_insn.specs.Spelling.{wide_source, wide_imm, next_imm};
ghost use Rattle.bpf_insn.specs.Spelling.{IsFields, IsWideNumber};
ghost use Rattle.bpf_insn.specs.Table.{source_code};

use crate::fields::Fields;
use crate::form::WideSource;
use crate::insn::Insn;
use crate::lookup::wide_source_in;
use crate::operand::WideValue;
use crate::reg::Reg;

/// The value that is loaded. For a number, imm is the low half, and the second half's imm the high
/// half.
fn wide_value_in(source: WideSource, first: Fields, second: Fields) -> WideValue
    requires second { IsSecondHalf (source_code source) second }
    ensures fits { IsWideNumber result }
    ensures source { wide_source result ≡ source }
    ensures imm { wide_imm result ≡ first.imm }
    ensures next { next_imm result ≡ second.imm }
{
    match source {
        WideSource::Number => {
            let low = u64::from(first.imm.cast_unsigned());
            let high = u64::from(second.imm.cast_unsigned());
            WideValue::Number(low + (high << 32))
        }
        WideSource::Map => WideValue::Map(first.imm),
        WideSource::Cell => WideValue::Cell {
            array: first.imm,
            offset: second.imm,
        },
    }
}

/// The wide load of two halves.
pub fn wide_in(first: Fields, second: Fields) -> Insn
    requires first { IsInOrder Form.Wide first }
    requires fits { IsFields second }
    requires second { IsSecondHalf first.src second }
    ensures { IsTheInsn Form.Wide first (Some second) result }
{
    let Some(source) = wide_source_in(first) else {
        unreachable!()
    };
    Insn::Wide {
        dst: Reg::at(first.dst),
        value: wide_value_in(source, first, second),
    }
}
