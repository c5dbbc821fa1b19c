//! What is printed of a stage, and why one stops.

ghost use Rattle.std.specs.Prelude.{◌≡◌, IfErr, IfOk, OnOk, false, not, true};
ghost use Rattle.stage_servers.specs.Stops.{IsRefusedOnlyIf};
ghost use Rattle.stage_servers.specs.declared.outcome.Stop.TheVariants.{Memory};

use printing::TextBuffer;
use std::alloc::{AllocError, Global};

/// The lines for standard output and for standard error, each ended by LF, and whether everything
/// was done.
#[derive(Drop)]
pub struct StageOutcome {
    pub text: String,
    pub stderr: String,
    pub is_done: bool,
}

/// The lines that are printed so far; the operator's ports of the servers at which this call halted
/// an app, though not yet in the files, and of those that are to offer it again then; whether some
/// other server may have halted it; and whether something is amiss, though all is done.
#[derive(Drop)]
pub struct Lines {
    pub text: TextBuffer,
    pub stderr: TextBuffer,
    halted_at: Vec<u16>,
    offered_at: Vec<u16>,
    may_be_halted: bool,
    is_amiss: bool,
}

// What holds of a halt that isn't in the files, and what to do.
const RESTARTS: &str = ", over a restart only with --counters: mend this, and call it again\n";

/// Why nothing more is done.
#[derive(Drop)]
pub enum Stop {
    /// Before a file or a record was changed, for this reason; a halt may have reached servers.
    Refused(String),
    /// After something may have been changed: what happened, and what to do.
    Failed(String),
    /// An allocation failed.
    Memory,
}

impl From<AllocError> for Stop {
    ghost from_gives = { λ _ stop. stop ≡ Memory };

    fn from(_: AllocError) -> Self {
        Stop::Memory
    }
}

impl Lines {
    /// No lines.
    // open: that there are none: rows.
    pub fn new(alloc: Global) -> Lines {
        Lines {
            text: TextBuffer::new(alloc),
            stderr: TextBuffer::new(alloc),
            halted_at: Vec::new(alloc),
            offered_at: Vec::new(alloc),
            may_be_halted: false,
            is_amiss: false,
        }
    }

    /// Notes that an app is halted at the server of a port, though not yet in the files; and
    /// whether it is to be offered there again, once its release is halted in the files.
    pub(crate) fn note_halt(&mut self, port: u16, is_offered: bool) {
        let noted = self.halted_at.push(port).is_ok();
        if !noted || is_offered && self.offered_at.push(port).is_err() {
            self.stderr.leave_out();
        }
    }

    /// Notes that a server may have halted an app, though its reply didn't arrive.
    pub(crate) fn note_lost_reply(&mut self) {
        self.may_be_halted = true;
    }

    /// The ports of the servers at which the app of a halt is halted.
    pub(crate) fn halted_ports(&self) -> &[u16] {
        &self.halted_at
    }

    /// The ports of those that are to offer the app again.
    pub(crate) fn offered_ports(&self) -> &[u16] {
        &self.offered_at
    }

    /// Adds a line of what is amiss, though all is done: the status is 1 then.
    // open: what is printed: bench/nights.
    pub fn note_amiss(&mut self, reason: Stop) {
        self.is_amiss = true;
        match reason {
            Stop::Refused(reason) | Stop::Failed(reason) => self.push_reason(reason, "\n"),
            Stop::Memory => self.stderr.leave_out(),
        }
    }

    /// Whether something is amiss, though all is done.
    // open: whether it is: bench/nights.
    pub fn is_amiss(&self) -> bool {
        self.is_amiss
    }

    /// Whether no piece of a line is left out.
    // open: whether one is, which only an allocation decides.
    pub fn are_complete(&self) -> bool {
        self.text.is_complete() && self.stderr.is_complete()
    }

    // Adds a line with a reason.
    fn push_reason(&mut self, reason: String, end: &str) {
        self.stderr.push("stage: ");
        self.stderr.push(reason.as_str());
        self.stderr.push(end);
    }

    // Adds the reason of a stop.
    fn push_stop(&mut self, stop: Stop) {
        match stop {
            Stop::Refused(reason) => self.push_reason(reason, self.unchanged()),
            Stop::Failed(reason) => self.push_reason(reason, "\n"),
            Stop::Memory => self.stderr.leave_out(),
        }
        self.push_halted();
    }

    // What hasn't changed, if a call stops before it changes a file: nothing, if no server halts an
    // app by now, or may do so.
    fn unchanged(&self) -> &'static str {
        if self.halted_at.is_empty() && !self.may_be_halted {
            return "; nothing has changed\n";
        }
        "; no file has changed\n"
    }

    // Adds the ports at which the app of a halt is halted all the same.
    fn push_halted(&mut self) {
        if self.halted_at.is_empty() {
            return;
        }
        self.stderr.push("stage: halted until rollout resume at");
        for port in &self.halted_at {
            self.stderr.push_number(" ", *port as u64, "");
        }
        self.stderr.push(RESTARTS);
    }

    /// Continues in spite of a refusal, if an option says so. Memory running out isn't passed over.
    // open: that memory running out isn't; and that it continues otherwise, if memory suffices.
    pub fn go_on_if(&mut self, may: bool, refusal: Stop) -> Result<(), Stop>
        ensures continued { OnOk result (may ≡ true) }
        ensures refused { IfErr result (IsRefusedOnlyIf (not may)) }
    {
        if !may {
            return Err(refusal);
        }
        match refusal {
            Stop::Refused(reason) => {
                self.push_reason(reason, "; it continues\n");
                Ok(())
            }
            Stop::Failed(reason) => Err(Stop::Failed(reason)),
            Stop::Memory => Err(Stop::Memory),
        }
    }

    /// The outcome, which has these lines, if they are complete.
    // open: that it has these lines: rows.
    pub fn into_outcome(self, is_done: bool) -> Result<StageOutcome, AllocError>
        ensures { IfOk result (λ outcome. outcome.is_done ≡ is_done) }
    {
        let Lines { text, stderr, .. } = self;
        let Ok(text) = text.finish() else {
            return Err(AllocError);
        };
        match stderr.finish() {
            Ok(stderr) => Ok(StageOutcome {
                text,
                stderr,
                is_done,
            }),
            Err(_) => Err(AllocError),
        }
    }

    /// The outcome of an action that stopped.
    // open: that it has the lines: rows.
    pub fn into_stopped(self, stop: Stop) -> Result<StageOutcome, AllocError>
        ensures { IfOk result (λ outcome. outcome.is_done ≡ false) }
    {
        let mut lines = self;
        lines.push_stop(stop);
        lines.into_outcome(false)
    }
}
