//! The state of a run. In contracts it is a state of the semantics, in which `None` means unset.

ghost use Rattle.std.specs.Prelude.{◌≡◌, ℕ, ◌+◌, ◌<◌, ◌≤◌, ◌-◌, ◌^◌, length};
ghost use Rattle.std.specs.Prelude.{if◌then◌else◌, Some, None};
ghost use Rattle.std.specs.Arc.{arc_value};
ghost use Rattle.bpf_insn.specs.Table.{number_of};
ghost use Rattle.bpf_semantics.specs.Memory.{set_bytes};
ghost use Rattle.bpf_semantics.specs.Outcome.{moved_to};
ghost use Rattle.bpf_semantics.specs.Reads as reads;
ghost use Rattle.bpf_semantics.specs.State.{opening, opening_registers};
ghost use Rattle.bpf_semantics.specs.State.{with_bytes, with_register, with_result};
ghost use Rattle.reference.specs.Marks.{mark_at, state_of, with_stack};

use attrs::Attrs;
use bpf_insn::Reg;
use bpf_semantics::{CONTEXT_START, STACK_SIZE, STACK_TOP};
use std::sync::Arc;

/// A run of any program, with the attributes of the app that it is for.
#[derive(Drop)]
pub struct Interpreter {
    slot: usize,
    registers: [Option<u64>; 11],
    stack: [Option<u8>; STACK_SIZE as usize],
    attrs: Arc<Attrs>,
    count: u64,
}

#[tactic(auto, unfolding(crate::specs::Marks::state_of))]
impl Interpreter {
    /// A run at its first instruction.
    pub fn start(attrs: Arc<Attrs>) -> Interpreter
        ensures { state_of result ≡ opening (arc_value attrs) }
    {
        Interpreter {
            slot: 0,
            registers: opening_marks(),
            stack: unset_marks(),
            attrs,
            count: 0,
        }
    }

    /// The slot of the next instruction.
    pub fn slot(&self) -> usize
        ensures { result ≡ (state_of self.now).slot }
    {
        self.slot
    }

    /// The number of instructions so far.
    pub fn count(&self) -> u64
        ensures { result ≡ (state_of self.now).count }
    {
        self.count
    }

    /// The attributes of the app.
    pub fn attrs(&self) -> &Attrs
        ensures { result.now ≡ (state_of self.now).attributes }
    {
        &self.attrs
    }

    /// The number in a register, if it is set.
    pub fn register(&self, register: Reg) -> Option<u64>
        ensures { result ≡ reads.register (state_of self.now) register }
    {
        self.registers[register.index()]
    }

    /// Sets a register.
    pub(crate) fn set(&mut self, register: Reg, value: u64)
        ensures { state_of self.new ≡ with_register (state_of self.old) (number_of register) value }
    {
        self.registers[register.index()] = Some(value);
    }

    /// Sets R0 to a helper's result, and unsets its arguments, R1 to R5.
    pub(crate) fn set_result(&mut self, value: u64)
        ensures { state_of self.new ≡ with_result (state_of self.old) value }
    {
        self.registers[0] = Some(value);
        self.registers[1] = None;
        self.registers[2] = None;
        self.registers[3] = None;
        self.registers[4] = None;
        self.registers[5] = None;
    }

    /// Continues at a slot, and counts one instruction.
    pub(crate) fn go(&mut self, slot: usize)
        requires { (state_of self.old).count < 2 ^ 64 - 1 }
        ensures { state_of self.new ≡ moved_to (state_of self.old) slot }
    {
        self.slot = slot;
        self.count += 1;
    }

    /// Sets the bytes of the stack from `place` to the low bytes of a number, lowest first.
    pub(crate) fn put(&mut self, place: usize, count: usize, value: u64)
        requires { place + count ≤ 512 }
        ensures { state_of self.new ≡ with_stack (state_of self.old) place count value }
    {
        put_bytes(&mut self.stack, place, count, value);
    }

    /// Reads the bytes of the stack from `place`, and returns whether all of them are set.
    pub(crate) fn read(&self, place: usize, into: &mut [u8]) -> bool
        requires { place + length into.old ≤ 512 }
        ensures { let s = state_of self.now in
            set_bytes s.stack place (length into.old) ≡ (if result then Some into.new else None) }
    {
        read_bytes(&self.stack, place, into)
    }
}

// R1 is the address of the context, R10 the top of the stack, and the others are unset.
fn opening_marks() -> [Option<u64>; 11]
    ensures { (r : ℕ) → mark_at result r ≡ opening_registers r }
{
    let mut marks = [None; 11];
    marks[1] = Some(CONTEXT_START);
    marks[10] = Some(STACK_TOP);
    marks
}

// A stack with no byte set.
fn unset_marks() -> [Option<u8>; STACK_SIZE as usize]
    ensures { (k : ℕ) → mark_at result k ≡ None }
{
    [None; STACK_SIZE as usize]
}

// Sets marks to the low bytes of a number.
fn put_bytes(marks: &mut [Option<u8>], place: usize, count: usize, value: u64)
    requires { place + count ≤ length marks.old }
    ensures length { length marks.new ≡ length marks.old }
    ensures bytes { let old = mark_at marks.old in
        (j : ℕ) → mark_at marks.new j ≡ with_bytes old place count value j }
{
    let mut rest = value;
    for k in 0..count {
        marks[place + k] = Some((rest % 256) as u8);
        rest /= 256;
    }
}

// Reads marks, and returns whether all of them are set.
fn read_bytes(marks: &[Option<u8>], place: usize, into: &mut [u8]) -> bool
    requires { place + length into.old ≤ length marks.now }
    ensures { let bytes = set_bytes (mark_at marks.now) place (length into.old) in
        bytes ≡ (if result then Some into.new else None) }
{
    for k in 0..into.len() {
        match marks[place + k] {
            Some(byte) => into[k] = byte,
            None => return false,
        }
    }
    true
}
