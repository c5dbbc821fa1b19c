//! Building an instruction from the fields of its halves. First the row's rules for registers and
//! unused fields are checked. Then each class of instructions reads its parts; a number that
//! encodes no part is a fault.

ghost use Rattle.std.specs.Prelude.{◌≢◌, IfOk, IfErr, IfSome, IfNone, None};
ghost use Rattle.bpf_insn.specs.Halves.{IsOfRow, IsInOrder, IsRowFault, IsTheInsn};

mod arithmetic;
mod jumps;
mod memory;
mod wide;

use crate::fields::{Fields, InsnFault};
use crate::form::Form;
use crate::insn::Insn;
pub use wide::wide_in;

/// The instruction of a one-slot row, from fields with valid registers, and 0 in each field that
/// the row doesn't use.
#[inline(always)]
fn parts_in(form: Form, fields: Fields) -> Result<Insn, InsnFault>
    requires one_slot { form ≢ Form.Wide }
    requires fields { IsInOrder form fields }
    ensures insn { IfOk result (λ i. IsTheInsn form fields None i) }
    ensures fault { IfErr result (λ e. IsRowFault form fields e) }
{
    match form {
        Form::Alu(bits, code, source) => arithmetic::alu_in(bits, code, source, fields),
        Form::Mov(bits, source) => arithmetic::mov_in(bits, source, fields),
        Form::Neg(bits) => Ok(arithmetic::neg_in(bits, fields)),
        Form::End(order) => arithmetic::end_in(order, fields),
        Form::Jump => Ok(jumps::jump_in(fields)),
        Form::JumpLong => Ok(jumps::long_jump_in(fields)),
        Form::JumpIf(bits, condition, source) => {
            Ok(jumps::jump_if_in(bits, condition, source, fields))
        }
        Form::Call => Ok(jumps::call_in(fields)),
        Form::Exit => Ok(jumps::exit_in(fields)),
        Form::Load(kind) => Ok(memory::load_in(kind, fields)),
        Form::StoreImm(size) => Ok(memory::store_imm_in(size, fields)),
        Form::Store(size) => Ok(memory::store_in(size, fields)),
        Form::Atomic(size) => memory::atomic_in(size, fields),
        Form::Wide => unreachable!(),
    }
}

/// The fault of the registers or unused fields, if there is one.
#[inline(always)]
pub fn common_fault(form: Form, fields: Fields) -> Option<InsnFault>
    requires { IsOfRow form fields }
    ensures fault { IfSome result (λ e. IsRowFault form fields e) }
    ensures none { IfNone result (IsInOrder form fields) }
{
    let row = form.row();
    if !row.allows_registers(fields) {
        Some(InsnFault::Register)
    } else if !row.leaves_unused(fields) {
        Some(InsnFault::UnusedField)
    } else {
        None
    }
}

/// The instruction of a one-slot row, or the least fault of its fields.
#[inline(always)]
pub fn insn_in(form: Form, fields: Fields) -> Result<Insn, InsnFault>
    requires one_slot { form ≢ Form.Wide }
    requires fields { IsOfRow form fields }
    ensures insn { IfOk result (λ i. IsTheInsn form fields None i) }
    ensures fault { IfErr result (λ e. IsRowFault form fields e) }
{
    match common_fault(form, fields) {
        Some(fault) => Err(fault),
        None => parts_in(form, fields),
    }
}
