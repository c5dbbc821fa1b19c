//! The files of a folder by their names, and the records of the steps that replaced them.

ghost use Rattle.std.specs.Prelude.{◌≡◌, ◌⊎◌, IfOk, OnErr, OnOk, option_copied, option_map};
ghost use Rattle.stage_folder.specs.Folders.{KnownFolder, KnownRecords};
ghost use Rattle.stage_folder.specs.Folders.{GivesFile, GivesNumbers, GivesRecord};
ghost use Rattle.stage_folder.specs.Folders.{put_known, record_known};

use crate::folder_fault::FolderFault;
use crate::note::FolderNote;

/// A folder. Its files are named relative to it; the records of its steps are apart from them.
pub trait StageFolder {
    /// The bytes of each file by its name, none if it is missing. They are known for a
    /// folder in memory, and unknown for one of a device.
    ghost files: { Self → KnownFolder };

    /// The bytes of each record by its number, in the same way.
    ghost records: { Self → KnownRecords };

    /// The absolute path of a device's folder; empty for one in memory.
    // open: what it is.
    fn path(&self) -> &str;

    /// Refuses the folder if another process is at work in it, and otherwise makes others refuse
    /// it until this value is dropped.
    // open: whether it is locked: bench/staging.py.
    fn lock(&mut self) -> Result<(), FolderFault>
        ensures files { files self.new ≡ files self.old }
        ensures records { records self.new ≡ records self.old };

    /// The bytes of a file, at most 16 MiB; None if it is missing.
    fn read(&self, name: &str) -> Result<Option<Vec<u8>>, FolderFault>
        ensures { IfOk result (λ found. GivesFile (files self.now) name.now
            (option_map (λ bytes. bytes.items) found)) };

    /// Replaces a file by these bytes as a whole, or makes it; removes it for None. After an error
    /// the file is as before, or else it is replaced but may not last (its folder isn't synced).
    fn put(&mut self, name: &str, bytes: Option<&[u8]>) -> Result<(), FolderFault>
        ensures put { OnOk result
            (files self.new ≡ put_known name.now (option_copied bytes.entry) (files self.old)) }
        ensures failed { OnErr result ((files self.new ≡ files self.old) ⊎
            (files self.new ≡ put_known name.now (option_copied bytes.entry) (files self.old))) }
        ensures records { records self.new ≡ records self.old };

    /// The numbers of the records, in any order.
    fn record_numbers(&self) -> Result<Vec<u32>, FolderFault>
        ensures { IfOk result (λ numbers. GivesNumbers (records self.now) numbers.items) };

    /// The bytes of a record; None if it is missing.
    fn read_record(&self, number: u32) -> Result<Option<Vec<u8>>, FolderFault>
        ensures { IfOk result (λ found. GivesRecord (records self.now) number
            (option_map (λ bytes. bytes.items) found)) };

    /// Makes a record, or replaces it as a whole. After an error it is as before, or else it is
    /// replaced but may not last.
    fn put_record(&mut self, number: u32, bytes: &[u8]) -> Result<(), FolderFault>
        ensures put { OnOk result
            (records self.new ≡ record_known number bytes.now (records self.old)) }
        ensures failed { OnErr result ((records self.new ≡ records self.old) ⊎
            (records self.new ≡ record_known number bytes.now (records self.old))) }
        ensures files { files self.new ≡ files self.old };

    /// A note, at most 1 MiB; None if there is none. Only a device's folder has notes, next to its
    /// records.
    // open: what it is.
    fn read_note(&self, _note: FolderNote) -> Result<Option<Vec<u8>>, FolderFault> {
        Ok(None)
    }

    /// Makes a note, or replaces it as a whole.
    // open: what it is afterwards.
    fn write_note(&self, _note: FolderNote, _bytes: &[u8]) -> Result<(), FolderFault> {
        Err(FolderFault::NotRecorded)
    }
}
