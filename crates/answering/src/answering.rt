//! One request, from the bytes of a reader to those of a writer.

ghost use Rattle.std.specs.Prelude.{◌-◌, ◌^◌, ◌<◌, false};
ghost use Rattle.hot_swap.specs.Published.{Extends};
ghost use Rattle.answering.specs.Connection.{Answers};

use crate::answer_buffers::AnswerBuffers;
use crate::observer::NoObserver;
use crate::sent::Sent;
use crate::settling::answer_in;
use crate::turn::Turn;
use attrs::Moment;
use cells::CellSteps;
use cover::Uncovered;
use hot_swap::Watcher;
use http_front::{Counted, PostFault};
use std::alloc::Global;
use std::error::Error;
use std::fmt::{self, Display};
use std::io::{Read, Write};

/// Why no whole reply was written.
#[derive(Clone, Copy, Debug, Drop)]
pub enum AnswerFault {
    /// P7: the input ended before the request did. Nothing was written.
    Ended,
    /// P8: the reader failed. Nothing was written.
    Reading,
    /// P8: the writer failed after it took this number of bytes, which are a prefix of the reply.
    Writing(usize),
}

impl Display for AnswerFault {
    fn fmt<W: fmt::Write>(&self, f: &mut fmt::Formatter<W>) -> fmt::Result {
        let fault = match self {
            AnswerFault::Ended => PostFault::Ended,
            AnswerFault::Reading | AnswerFault::Writing(_) => PostFault::Device,
        };
        write!(f, "{fault}")
    }
}

impl Error for AnswerFault {}

/// Reads a request, writes its reply, and returns the reply that was sent. This is the
/// specification's call; servers take `answer_in`, which reuses their buffers.
// open: what `answer_in` leaves open.
pub fn answer<R: Read, W: Write, C: CellSteps>(
    alloc: Global,
    reader: &mut Counted<R>,
    writer: &mut Counted<W>,
    cells: &C,
    pass: &mut C::Pass,
    watcher: &mut Watcher,
    moment: Moment,
) -> Result<Sent, AnswerFault>
    requires belongs { C.belongs cells.now pass.old }
    requires reads { reader.old.failures < 2 ^ 64 - 1 }
    requires writes { writer.old.failures < 2 ^ 64 - 1 }
    ensures belongs { C.belongs cells.now pass.new }
    ensures watched { Extends watcher.old watcher.new }
    // No reply is withheld.
    ensures answers { Answers false C.grew R.remaining W.contents watcher.new moment
        pass.old pass.new reader.old reader.new writer.old writer.new result }
{
    let turn = Turn {
        alloc,
        cells,
        moment: &moment,
    };
    let mut room = AnswerBuffers::new(alloc);
    answer_in(
        &turn,
        &Uncovered,
        &mut room,
        reader,
        writer,
        pass,
        watcher,
        &mut NoObserver,
    )
}
