//! The newest lines of a machine in a log.

ghost use Rattle.std.specs.Prelude.{◌≡◌, [], IfOk, OnOk};
ghost use Rattle.serde_json.specs.View.{view};
ghost use Rattle.why_log.specs.Found as specs;

use crate::machine::Machine;
use crate::served::{LoggedGeneration, ServedGenerations};
use json_value::read_json;
use report::number_in;
use serde_json::Value;
use std::alloc::{AllocError, Global};

/// A line of a machine.
#[derive(Drop)]
pub(crate) struct FoundLine {
    /// The line, without its line feed.
    pub(crate) bytes: Vec<u8>,
    /// What was served then.
    pub(crate) served: LoggedGeneration,
}

/// The lines of a machine that were found: the newest ones.
#[derive(Drop)]
pub struct FoundLines {
    pub(crate) lines: Vec<FoundLine>,
    most: usize,
    served: ServedGenerations,
}

impl FoundLines {
    /// No line so far. Of those that come, the last `most` are kept.
    pub fn new(alloc: Global, most: usize) -> FoundLines
        ensures { result.lines.items ≡ [] }
    {
        FoundLines {
            lines: Vec::new(alloc),
            most,
            served: ServedGenerations::new(alloc),
        }
    }

    /// Notes the next line of the log, which has no line feed.
    #[tactic(auto, using(crate::proofs::Kept::keeps_all))]
    pub(crate) fn note(
        &mut self,
        alloc: Global,
        machine: &Machine<'_>,
        line: &[u8],
    ) -> Result<(), AllocError>
        ensures { OnOk result (specs.Keeps machine.now self.old self.new) }
    {
        match read_json(alloc, line)? {
            Some(event) => {
                let noted = self.note_event(alloc, machine, line, &event);
                drop(event);
                noted
            }
            None => Ok(()),
        }
    }

    #[tactic(auto, using(crate::proofs::Kept::keeps_same, crate::proofs::Kept::keeps_both))]
    fn note_event(
        &mut self,
        alloc: Global,
        machine: &Machine<'_>,
        line: &[u8],
        event: &Value,
    ) -> Result<(), AllocError>
        requires { specs.IsJson line.now (view event.now) }
        ensures { OnOk result (specs.Keeps machine.now self.old self.new) }
    {
        self.served.note(alloc, event)?;
        if !machine.sent(event) {
            return Ok(());
        }
        self.keep(alloc, machine, line, event)
    }

    // Keeps a line of the machine, and forgets the oldest one if there are too many.
    fn keep(
        &mut self,
        alloc: Global,
        machine: &Machine<'_>,
        line: &[u8],
        event: &Value,
    ) -> Result<(), AllocError>
        requires json { specs.IsJson line.now (view event.now) }
        requires sent { specs.IsSent machine.now (view event.now) }
        ensures { OnOk result (specs.Keeps machine.now self.old self.new) }
    {
        let served = self.served.copy_of(alloc, number_in(event, "generation"))?;
        let found = found_line(alloc, line, served)?;
        self.lines.push(found)?;
        if self.lines.len() > self.most {
            let _oldest = self.lines.remove(0);
        }
        Ok(())
    }
}

fn found_line(alloc: Global, line: &[u8], served: LoggedGeneration) -> Result<FoundLine, AllocError>
    ensures { IfOk result (λ found. found.bytes.items ≡ line.now) }
{
    match Vec::from_slice(alloc, line) {
        Ok(bytes) => Ok(FoundLine { bytes, served }),
        Err(error) => {
            drop(served);
            Err(error)
        }
    }
}
