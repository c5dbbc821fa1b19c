//! No bytes have two verdicts. The proof reads the bytes once, as `read` does.

ghost use Rattle.flow_check.specs.Fault.{HasOneVerdict};

use bpf_insn::decode_at;

/// Law: bytes are accepted as one program, or refused with one fault.
pub fn one_verdict(bytes: &[u8])
    ensures { HasOneVerdict bytes.now }
{
    let mut slot = 0;
    while 8 * slot < bytes.len() {
        match decode_at(bytes, slot) {
            Ok((_, width)) => slot += width.slots(),
            Err(_) => return,
        }
    }
}
