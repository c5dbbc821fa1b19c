//! A record of a step that can't be written, in a folder in memory.

use crate::files::shown;
use attrs::Text;
use stage_folder::{FolderFault, RecordFault, StageFolder, write_record};
use stage_records::{StagingStep, StepAction};
use std::alloc::{AllocError, Global};
use std::test::Fail;

/// A folder of at most one record. Writing it fails, before it is there, or once it is; reading it
/// may also fail.
#[derive(Drop)]
struct OneRecord {
    alloc: Global,
    record: Option<Vec<u8>>,
    makes: bool,
    reads: bool,
}

impl StageFolder for OneRecord {
    ghost use Rattle.std.specs.Prelude.{None};

    ghost files = { λ _. None };

    ghost records = { λ _. None };

    fn path(&self) -> &str {
        ""
    }

    fn lock(&mut self) -> Result<(), FolderFault> {
        Ok(())
    }

    fn read(&self, _name: &str) -> Result<Option<Vec<u8>>, FolderFault> {
        Ok(None)
    }

    fn put(&mut self, _name: &str, _bytes: Option<&[u8]>) -> Result<(), FolderFault> {
        Ok(())
    }

    fn record_numbers(&self) -> Result<Vec<u32>, FolderFault> {
        Ok(Vec::new(self.alloc))
    }

    fn read_record(&self, _number: u32) -> Result<Option<Vec<u8>>, FolderFault> {
        if !self.reads {
            return Err(FolderFault::TooLong);
        }
        match &self.record {
            Some(bytes) => Ok(Some(Vec::from_slice(self.alloc, bytes)?)),
            None => Ok(None),
        }
    }

    fn put_record(&mut self, _number: u32, bytes: &[u8]) -> Result<(), FolderFault> {
        if self.makes {
            self.record = Some(Vec::from_slice(self.alloc, bytes)?);
        }
        Err(FolderFault::NotRegular)
    }
}

fn halt(alloc: Global) -> Result<StagingStep, AllocError> {
    let appid = Text::new(String::from_str(alloc, "editor")?);
    Ok(StagingStep {
        number: 1,
        time: 0,
        user: None,
        because: None,
        action: StepAction::Halt { appid },
        files: Vec::new(alloc),
        is_undone: false,
    })
}

/// Why the step isn't recorded, in a folder that makes the record, and can read it, or not.
fn fault_of(alloc: Global, step: &StagingStep, makes: bool, reads: bool) -> Option<RecordFault> {
    let mut folder = OneRecord {
        alloc,
        record: None,
        makes,
        reads,
    };
    let fault = write_record(alloc, &mut folder, step).err();
    drop(folder);
    fault
}

/// Whether the folder makes the record, whether it can then be read, and the fault.
const FAULTS: &[(bool, bool, RecordFault)] = &[
    (false, true, RecordFault::NotMade(FolderFault::NotRegular)),
    (true, true, RecordFault::NotKept(FolderFault::NotRegular)),
    (false, false, RecordFault::Unknown(FolderFault::NotRegular)),
    (true, false, RecordFault::Unknown(FolderFault::NotRegular)),
];

fn are_given(alloc: Global, step: &StagingStep) -> bool {
    for (makes, reads, fault) in FAULTS {
        if fault_of(alloc, step, *makes, *reads) != Some(*fault) {
            return false;
        }
    }
    true
}

#[test]
fn says_what_a_record_is(rt: HostRuntime) -> Result<(), Fail> {
    let step = halt(rt.alloc())?;
    let are_given = are_given(rt.alloc(), &step);
    drop(step);
    shown(are_given, "what a record is that can't be written")
}
