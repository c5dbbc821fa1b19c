//! Notes in the folder of the records, which help people, and on which no step rests.

/// A note of a folder.
#[derive(Clone, Copy, PartialEq, Eq)]
pub enum FolderNote {
    /// The last load of each server by `stage`.
    Loads,
    /// Which call is at work in the folder, or was when it crashed. It isn't made before the
    /// folder of the records.
    AtWork,
}

impl FolderNote {
    /// Its path in the folder.
    pub(crate) fn path(self) -> &'static str {
        match self {
            FolderNote::Loads => ".stage/loads",
            FolderNote::AtWork => ".stage/at_work",
        }
    }
}

/// The number by which the system knows this process.
// open: what it is.
pub fn process_number() -> u32 {
    libc::getpid().unsigned_abs()
}
