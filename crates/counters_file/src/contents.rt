//! What a file of counters says.

ghost use Rattle.std.specs.Prelude.{◌≡◌, map, string_bytes};

use cells::Directory;
use std::marker::Model;

/// Whether the server that wrote the file was stopped, the appids of its halted apps, its arrays,
/// and the value of each of the 8192 cells. A counter that no array has is 0.
pub struct Contents {
    pub was_stopped: bool,
    pub halted: Vec<String>,
    pub directory: Directory,
    pub values: Vec<u64>,
}

// Not derived: a crate that drops one would prove the drop of each of its parts anew.
impl Drop for Contents {
    fn drop(self) {
        let Self {
            was_stopped: _was_stopped,
            halted: _halted,
            directory: _directory,
            values: _values,
        } = self;
    }
}

/// The parts of contents, without how the server ended.
#[derive(Drop)]
pub struct Parts {
    pub halted: Vec<String>,
    pub directory: Directory,
    pub values: Vec<u64>,
}

impl Contents {
    /// Its halted apps, its arrays, and the value of each of the 8192 cells.
    pub fn into_parts(self) -> Parts
        ensures halted { map string_bytes result.halted.items ≡ self.halted }
        ensures arrays { result.directory ≡ self.counters.arrays }
        ensures values { result.values.items ≡ self.counters.values }
    {
        let Self {
            was_stopped: _was_stopped,
            halted,
            directory,
            values,
        } = self;
        Parts {
            halted,
            directory,
            values,
        }
    }
}

impl Model for Contents {
    ghost use Rattle.std.specs.Prelude.{map, string_bytes};
    ghost use Rattle.counters_file.specs.Lines.{counters};
    ghost use Rattle.counters_file.specs.Text.{Contents};

    ghost Value = { Contents };

    ghost view = { λ c. record {
      was_stopped = c.was_stopped;
      halted = map string_bytes c.halted.items;
      counters = counters c.directory c.values.items;
    } };
}

/// Why a text isn't read.
#[derive(Clone, Copy, Debug, PartialEq, Eq)]
pub enum ReadFault {
    /// The line with this number, from 1, is the first that is wrong. If the text ends too early,
    /// it is the line after its last.
    Damaged { line: usize },
    /// An allocation failed.
    Memory,
}
