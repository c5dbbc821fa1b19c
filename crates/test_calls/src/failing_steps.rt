//! A step of `stage` that fails at each of its files, in a folder in memory.

use crate::files::shown;
use attrs::Text;
use stage_folder::{FolderFault, StageFolder, perform, undo};
use stage_records::ReplacedFile;
use std::alloc::{AllocError, Global};
use std::test::Fail;

/// A folder of the files `a`, `b` and `c`, each of one byte, `-` if it is missing. Only the first
/// calls of `put` succeed.
#[derive(Clone, Copy)]
struct Letters {
    alloc: Global,
    files: [u8; 3],
    puts: u32,
}

fn place_of(name: &str) -> usize {
    match name {
        "a" => 0,
        "b" => 1,
        _ => 2,
    }
}

impl StageFolder for Letters {
    ghost use Rattle.std.specs.Prelude.{None};

    ghost files = { λ _. None };

    ghost records = { λ _. None };

    fn path(&self) -> &str {
        ""
    }

    fn lock(&mut self) -> Result<(), FolderFault> {
        Ok(())
    }

    fn read(&self, name: &str) -> Result<Option<Vec<u8>>, FolderFault> {
        match self.files.get(place_of(name)) {
            None | Some(b'-') => Ok(None),
            Some(byte) => Ok(Some(Vec::from_slice(self.alloc, &[*byte])?)),
        }
    }

    fn put(&mut self, name: &str, bytes: Option<&[u8]>) -> Result<(), FolderFault> {
        if self.puts == 0 {
            return Err(FolderFault::NotRegular);
        }
        self.puts -= 1;
        let byte = match bytes {
            Some([byte, ..]) => *byte,
            _ => b'-',
        };
        if let Some(file) = self.files.get_mut(place_of(name)) {
            *file = byte;
        }
        Ok(())
    }

    fn record_numbers(&self) -> Result<Vec<u32>, FolderFault> {
        Ok(Vec::new(self.alloc))
    }

    fn read_record(&self, _number: u32) -> Result<Option<Vec<u8>>, FolderFault> {
        Ok(None)
    }

    fn put_record(&mut self, _number: u32, _bytes: &[u8]) -> Result<(), FolderFault> {
        Err(FolderFault::NotRecorded)
    }
}

fn replaced(
    alloc: Global,
    name: &str,
    before: Option<&[u8]>,
    after: &[u8],
) -> Result<ReplacedFile, AllocError> {
    let before = match before {
        Some(bytes) => Some(Vec::from_slice(alloc, bytes)?),
        None => None,
    };
    let after = Vec::from_slice(alloc, after)?;
    let name = Text::new(String::from_str(alloc, name)?);
    Ok(ReplacedFile {
        name,
        before,
        after,
    })
}

/// Appends the files of a step that changes `a` and `c`, and makes `b`.
fn push_files(alloc: Global, files: &mut Vec<ReplacedFile>) -> Result<(), AllocError> {
    files.push(replaced(alloc, "a", Some(b"1"), b"x")?)?;
    files.push(replaced(alloc, "b", None, b"y")?)?;
    files.push(replaced(alloc, "c", Some(b"3"), b"z")?)?;
    Ok(())
}

/// What a step leaves if only its first `puts` files can be replaced, and what undoing it leaves
/// if as few files can, and again.
fn outcome(alloc: Global, files: &[ReplacedFile], puts: u32) -> [[u8; 3]; 3] {
    let mut folder = Letters {
        alloc,
        files: *b"1-3",
        puts,
    };
    let _performed = perform(&mut folder, files);
    let performed = folder.files;
    folder.puts = puts;
    let _undone = undo(&mut folder, files);
    let undone = folder.files;
    folder.puts = 3;
    let _undone = undo(&mut folder, files);
    [performed, undone, folder.files]
}

/// How many files can be replaced, and the states.
const STATES: &[(u32, [[u8; 3]; 3])] = &[
    (0, [*b"1-3", *b"1-3", *b"1-3"]),
    (1, [*b"x-3", *b"x-3", *b"1-3"]),
    (2, [*b"xy3", *b"x-3", *b"1-3"]),
    (3, [*b"xyz", *b"1-3", *b"1-3"]),
];

/// Whether a step of these files leaves the states.
fn are_left(alloc: Global, files: &[ReplacedFile]) -> bool {
    for (puts, states) in STATES {
        if outcome(alloc, files, *puts) != *states {
            return false;
        }
    }
    true
}

#[test]
fn fails_at_each_file(rt: HostRuntime) -> Result<(), Fail> {
    let mut files = Vec::new(rt.alloc());
    push_files(rt.alloc(), &mut files)?;
    shown(are_left(rt.alloc(), &files), "a step fails at each file")
}
