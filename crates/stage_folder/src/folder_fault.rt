//! Why a folder's files or records can't be read or replaced.

ghost use Rattle.std.specs.Prelude.{◌≡◌};
ghost use Rattle.stage_folder.specs.declared.folder_fault.FolderFault.TheVariants.{Memory};

use bounded_files::FileFault;
use std::alloc::{AllocError, AllocFailed};
use std::fmt;
use std::io::{Error, ErrorKind};

/// What is wrong with a folder, a file or a record. Its text is a sentence without the name of the
/// file, which says what to do.
#[derive(Clone, Copy, PartialEq, Eq)]
pub enum FolderFault {
    /// It is missing, or no folder.
    NoFolder,
    /// Another process is at work in it.
    Locked,
    /// `.stage`, the folder of the records, is a link or no folder, another user's, or open to
    /// others.
    RecordsNotOwn,
    /// The record of this number doesn't spell a step of that number.
    NoRecord(u32),
    /// Two files of a step have one name, or its record doesn't read back as this step.
    NotRecorded,
    /// A name has an empty part between slashes or a part `..`, or leads into `.stage`.
    Outside,
    /// The file, or a folder before it, is a symbolic link.
    Link,
    /// It isn't a regular file: a folder, for instance, or a FIFO.
    NotRegular,
    /// It is longer than its kind may be: a file 16 MiB, a record 256 MiB, a note 1 MiB.
    TooLong,
    /// The system's reason.
    System(ErrorKind),
    /// An allocation failed.
    Memory,
}

/// Which file of a step couldn't be read or replaced, counted from 0, and why.
#[derive(Clone, Copy, PartialEq, Eq)]
pub struct StepFault {
    pub file: usize,
    pub fault: FolderFault,
}

/// Why a step isn't undone, or not whole.
#[derive(Clone, Copy, PartialEq, Eq)]
pub enum UndoFault {
    /// This file, counted from 0, is neither as the step found it nor as the step left it. Nothing
    /// has changed.
    Edited { file: usize },
    /// A file can't be read or restored. It may be restored all the same, and so may those after
    /// it.
    Stopped(StepFault),
}

/// Why recording a step failed, and what its record is then.
#[derive(Clone, Copy, PartialEq, Eq)]
pub enum RecordFault {
    /// The records are as before.
    NotMade(FolderFault),
    /// The step is recorded, but its record may not survive a crash.
    NotKept(FolderFault),
    /// One of both: the record can't be read again.
    Unknown(FolderFault),
}

impl From<AllocError> for FolderFault {
    ghost from_gives = { λ _ fault. fault ≡ Memory };

    fn from(_: AllocError) -> Self {
        FolderFault::Memory
    }
}

impl<T: Drop> From<AllocFailed<T>> for FolderFault {
    ghost from_gives = { λ _ fault. fault ≡ Memory };

    fn from(_: AllocFailed<T>) -> Self {
        FolderFault::Memory
    }
}

impl From<FileFault> for FolderFault {
    fn from(fault: FileFault) -> Self {
        match fault {
            FileFault::Link => FolderFault::Link,
            FileFault::NotRegular => FolderFault::NotRegular,
            FileFault::TooLong => FolderFault::TooLong,
            FileFault::System(ErrorKind::OutOfMemory) => FolderFault::Memory,
            FileFault::System(kind) => FolderFault::System(kind),
        }
    }
}

impl From<Error> for FolderFault {
    fn from(error: Error) -> Self {
        FolderFault::from(FileFault::from(error))
    }
}

impl fmt::Display for FolderFault {
    fn fmt<W: fmt::Write>(&self, f: &mut fmt::Formatter<W>) -> fmt::Result {
        match self {
            FolderFault::NoRecord(number) => write!(f, ".stage/{number}.json {NO_RECORD}"),
            FolderFault::System(ErrorKind::Uncategorized) => f.write_str(NO_ACCESS),
            FolderFault::System(kind) => write!(f, "{kind}"),
            fault => f.write_str(sentence(*fault)),
        }
    }
}

// What the system has no kind for, as a device that fails, or too many open files.
const NO_ACCESS: &str = "the system can't read or write it: its log may say why, as dmesg does";

const NO_RECORD: &str = "is no record of this step: mend it, or move it away and restore by hand";

// What is wrong, and what to do.
fn sentence(fault: FolderFault) -> &'static str {
    match fault {
        FolderFault::NoFolder => "there is no such folder: make it, or name another by --folder",
        FolderFault::Locked => "another `rollout stage` is at work here: wait until it has ended",
        FolderFault::RecordsNotOwn => {
            ".stage isn't a folder that only you may open: give it to yourself, with mode 700"
        }
        FolderFault::NotRecorded => "the step can't be recorded: name each file once, in UTF-8",
        FolderFault::Outside => {
            "the name has .. in it, or leads out of the folder: give the file a name inside it"
        }
        FolderFault::Link => "there is a symbolic link on the way: put the file itself there",
        FolderFault::NotRegular => "it is no regular file: put one there, or give another name",
        FolderFault::TooLong => "it is too long: make it shorter",
        FolderFault::Memory => "out of memory: try again",
        FolderFault::NoRecord(_) => NO_RECORD,
        FolderFault::System(_) => "",
    }
}
