//! A connection, from the bytes of its line to those of the reply. The line is read into a buffer
//! on the stack, so that a request is read even if no memory can be allocated.

ghost use Rattle.std.specs.Prelude.{◌≡◌, ◌+◌, ◌-◌, ◌^◌, ◌<◌, IfSome, IfNone, OnOk, OnSome};
ghost use Rattle.std.specs.Io.KnownBytes.{Appends};
ghost use Rattle.operator.specs.Perform.{AnswersLine};
ghost use Rattle.operator.specs.Texts.{reply_text};
ghost use Rattle.cells.specs.Grown.{Grows};

use crate::control::Control;
use crate::loader::Loader;
use crate::performing::perform;
use crate::reply::OperatorReply;
use crate::request_line::read_line;
use access_log::Utc;
use cells::CellSteps;
use net_io::Counted;
use operator_request::{LINE_LIMIT, OperatorRequest};
use std::alloc::Global;
use std::fmt::Display;
use std::io::{self, Read, Write};
use std::sync::Wait;

/// One byte more than a line may have, so that a longer line is noticed.
const LINE_SIZE: usize = LINE_LIMIT + 1;

/// Reads a line, does what it requests, and returns the reply. Returns `None` if the reader failed;
/// then nothing was done. `now` is the time that `state` has for a load.
// open: whether an allocation fails (B4, H1); which line a socket gave; that the time of a load is
// `now`. The value of each counter is that at the moment of its load.
pub fn answer<H: Wait, R: Read, L: Loader, C: CellSteps>(
    rt: &H,
    alloc: Global,
    now: Utc,
    reader: &mut Counted<R>,
    loader: &L,
    control: &mut Control,
    cells: &C,
    pass: &mut C::Pass,
) -> Option<OperatorReply<L::Fault>>
    requires belongs { C.belongs cells.now pass.old }
    requires reads { reader.old.failures < 2 ^ 64 - 1 }
    ensures belongs { C.belongs cells.now pass.new }

    // A line that was read is performed.
    ensures answers { IfSome result (λ reply. Grows C.grew pass.old pass.new
        (λ events. AnswersLine (L.loads loader.now) (R.remaining reader.old.inner)
        control.old events reply control.new)) }
    ensures received { OnSome result (reader.new.failures ≡ reader.old.failures) }

    // Otherwise the reader failed, and nothing happened.
    ensures unreceived { IfNone result ((control.new ≡ control.old) × (pass.new ≡ pass.old)) }
    ensures unreadable { IfNone result (reader.new.failures ≡ reader.old.failures + 1) }
{
    let mut room = [0; LINE_SIZE];
    let Ok(size) = read_line(reader, &mut room) else {
        return None;
    };
    let request = OperatorRequest::of(&room[..size]);
    let reply = perform(rt, alloc, now, loader, control, cells, pass, request);
    Some(reply)
}

/// Writes a reply; it allocates nothing.
// open: whether an allocation fails (B4).
pub fn write_reply<W: Write, F: Display>(writer: &mut W, reply: &OperatorReply<F>) -> io::Result<()>
    ensures { OnOk result (IfSome (reply_text F.output reply.now)
        (λ text. Appends (W.contents writer.old) (W.contents writer.new) text)) }
{
    write!(writer, "{reply}")
}
