//! Putting a program in order. A program that the flow check accepts is in order already. For any
//! other, the lines are planned and written. Then the flow check reads the result, and each
//! instruction is compared with the original. So correctness doesn't depend on the plan.

ghost use Rattle.std.specs.Prelude.{◌≡◌, ℕ, ◌<◌, ◌≤◌, IfOk, IfErr, IfSome, IfNone};
ghost use Rattle.std.specs.Prelude.{IsTrue, List, MatchResult, length};
ghost use Rattle.bpf_insn.specs.Program.{Program};
ghost use Rattle.flow_check.specs.Fault.{IsRead};
ghost use Rattle.flow_check.specs.Flow.{IsAcceptedAs, program_bytes};
ghost use Rattle.flow_check.specs.Sweep.{IsMarked};
ghost use Rattle.block_order.specs.Order.{HasOrder, IsOrdered};
ghost use Rattle.block_order.specs.Reach.{AreReachedFrom};
ghost use Rattle.block_order.specs.Refusal.{IsOrderFault, StaysWithin};

use crate::disorder::{first_cycle, first_stray};
use crate::kept::is_in_order;
use crate::plan::planned;
use crate::reach::reached_from;
use crate::read::read;
use crate::write::written;
use bpf_insn::Insn;
use flow_check::{Flow, FlowFault, FlowRule};
use std::alloc::{AllocError, Global};

/// Whether the flow check accepts the bytes, and they are the program in order.
fn is_kept_by(
    alloc: Global,
    code: &[Option<Insn>],
    places: &[Option<usize>],
    bytes: &[u8],
) -> Result<bool, FlowFault>
    requires short { length code.now ≤ 4096 }
    requires length { length places.now ≡ length code.now }
    ensures kept { IfOk result (λ b. IsTrue b → HasOrder code.now bytes.now) }
    ensures memory { IfErr result (λ e. e ≡ FlowFault.Memory) }
{
    match Flow::check(alloc, bytes) {
        Ok(flow) => Ok(is_in_order(code, &flow, places)),
        Err(FlowFault::Memory) => Err(FlowFault::Memory),
        Err(FlowFault::Rule { .. }) => Ok(false),
    }
}

/// The bytes of the program in order, if an order is found.
fn arranged(
    alloc: Global,
    code: &[Option<Insn>],
    reached: &[bool],
) -> Result<Option<Vec<u8>>, FlowFault>
    requires { length code.now ≤ 4096 }
    ensures order { IfOk result (λ o. IfSome o (λ v. HasOrder code.now v.items)) }
    ensures memory { IfErr result (λ e. e ≡ FlowFault.Memory) }
{
    let plan = planned(alloc, code, reached)?;
    let Some(bytes) = written(alloc, &plan)? else {
        return Ok(None);
    };
    if is_kept_by(alloc, code, &plan.places, &bytes)? {
        Ok(Some(bytes))
    } else {
        Ok(None)
    }
}

/// The lowest reached slot with an edge that leads onto no instruction, as a fault.
fn stray_fault(code: &[Option<Insn>], reached: &[bool]) -> Option<FlowFault>
    requires short { length code.now ≤ 4096 }
    requires reached { AreReachedFrom code.now 0 reached.now }
    ensures some { IfSome result (λ e. (b : List ℕ) → IsRead b code.now → IsOrderFault b e) }
    ensures none { IfNone result ((s : ℕ) → IsMarked reached.now s → StaysWithin code.now s) }
{
    let (slot, rule) = first_stray(code, reached)?;
    Some(FlowFault::Rule { slot, rule })
}

/// Why no order was found: a cycle, otherwise that the program in order is too long.
#[tactic(auto, using(crate::proofs::Refused::cycle_first, crate::proofs::Refused::orderable))]
fn order_fault(
    alloc: Global,
    code: &[Option<Insn>],
    reached: &[bool],
) -> Result<FlowFault, AllocError>
    requires short { length code.now ≤ 4096 }
    requires reached { AreReachedFrom code.now 0 reached.now }
    requires within { (s : ℕ) → IsMarked reached.now s → StaysWithin code.now s }
    ensures { IfOk result (λ e. (b : List ℕ) → IsRead b code.now → IsOrderFault b e) }
{
    Ok(match first_cycle(alloc, code, reached)? {
        Some(slot) => FlowFault::Rule {
            slot,
            rule: FlowRule::BackJump,
        },
        None => FlowFault::Rule {
            slot: 0,
            rule: FlowRule::TooLong,
        },
    })
}

/// The bytes of the program in order, or its fault.
fn in_order(alloc: Global, code: &[Option<Insn>]) -> Result<Vec<u8>, FlowFault>
    requires some { 0 < length code.now }
    requires short { length code.now ≤ 4096 }
    ensures order { IfOk result (λ v. HasOrder code.now v.items) }
    ensures fault { IfErr result (λ e. (b : List ℕ) → IsRead b code.now → IsOrderFault b e) }
{
    let reached = reached_from(alloc, code, 0)?;
    if let Some(fault) = stray_fault(code, &reached) {
        return Err(fault);
    }
    match arranged(alloc, code, &reached)? {
        Some(bytes) => Ok(bytes),
        None => Err(order_fault(alloc, code, &reached)?),
    }
}

/// Orders the bytes of a program that isn't in order.
fn rearranged(alloc: Global, bytes: &[u8]) -> Result<Vec<u8>, FlowFault>
    ensures program { IfOk result (λ v. IsOrdered bytes.now v.items) }
    ensures fault { IfErr result (λ e. IsOrderFault bytes.now e) }
{
    let code = read(alloc, bytes)?;
    in_order(alloc, &code)
}

/// Copies the bytes of a program that is in order.
fn copied(alloc: Global, bytes: &[u8], flow: &Flow) -> Result<Vec<u8>, AllocError>
    requires { program_bytes flow.now ≡ bytes.now }
    ensures program { IfOk result (λ v. IsOrdered bytes.now v.items) }
    ensures same { IfOk result (λ v. v.items ≡ bytes.now) }
{
    flow.invariant_law();
    let copy = Vec::from_slice(alloc, bytes)?;
    Ok(copy)
}

/// The bytes of the program with its basic blocks in an order in which every jump leads forward.
///
/// The entry comes first. Each next block is the lowest ready one; a block is ready if all blocks
/// that lead to it are placed. Slots that aren't reached are dropped, and a JA is inserted or
/// removed if the order requires it. If the flow check accepts the program, its bytes are
/// unchanged.
///
/// F6, F7 and F8 are those of `Flow::check`. F1 to F4 are only about reached slots. They name the
/// lowest slot that jumps below slot 0, out of the program or into a wide load, or falls off the
/// end. If there is none, F1 names the lowest jump that closes a cycle. F7 is also returned if
/// no slot does so and the program in order has more than 4096 slots. F9 may be returned at
/// any time.
// open: which order is found; that F7 isn't returned for a program with at most 4096 slots in
// order; the count of instructions, which may differ; whether an allocation fails.
pub fn ordered(alloc: Global, bytes: &[u8]) -> Result<Vec<u8>, FlowFault>
    ensures program { IfOk result (λ v. IsOrdered bytes.now v.items) }
    ensures same { (p : Program) → IsAcceptedAs bytes.now p
        → MatchResult result (λ v. v.items ≡ bytes.now) (λ e. e ≡ FlowFault.Memory) }
    ensures fault { IfErr result (λ e. IsOrderFault bytes.now e) }
{
    match Flow::check(alloc, bytes) {
        Ok(flow) => Ok(copied(alloc, bytes, &flow)?),
        Err(FlowFault::Memory) => Err(FlowFault::Memory),
        Err(FlowFault::Rule { .. }) => rearranged(alloc, bytes),
    }
}
