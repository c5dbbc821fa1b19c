//! The parts of the report on a refused manifest.

use load::LoadFault;

/// Why a manifest is refused, and where. Lines are ended by a line feed.
pub struct Refused {
    /// The fault of the manifest's load.
    pub fault: LoadFault,
    /// All lines after that of the refusal: the lines of this fault and of the further ones, how
    /// many more there are, and after which app no file is read. If out of memory, only the lines
    /// of this fault, or none.
    pub reason: String,
    /// Where and why: the lines of this fault. Empty if an allocation for them failed.
    pub own: String,
    /// The further faults, at most nine. Empty if an allocation for them failed.
    pub further: Vec<FaultReport>,
    /// How many further faults are left out of `further`.
    pub left_out: usize,
    /// How many apps were gathered: 0 if it is refused for its bytes or its arrays, or if memory
    /// runs out before all files are read.
    pub read: usize,
    /// How many apps after these have no file read.
    pub unread: usize,
}

// Not derived: a crate that drops one would prove the drop of each of its parts anew.
impl Drop for Refused {
    fn drop(self) {
        let Self {
            fault: _fault,
            reason: _reason,
            own: _own,
            further: _further,
            left_out: _left_out,
            read: _read,
            unread: _unread,
        } = self;
    }
}

/// A further fault of a manifest.
pub struct FaultReport {
    pub fault: LoadFault,
    /// Where and why: lines, each ended by a line feed. Empty if an allocation for them failed.
    pub reason: String,
}

// Not derived: a crate that drops one would prove the drop of each of its parts anew.
impl Drop for FaultReport {
    fn drop(self) {
        let Self {
            fault: _fault,
            reason: _reason,
        } = self;
    }
}
