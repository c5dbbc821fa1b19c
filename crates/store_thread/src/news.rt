//! What the thread that stores counters gets to know of an operator's request.

ghost use Rattle.cells.specs.Arrays.{HasRanges};
ghost use Rattle.cells.specs.Directory.{IsDirectory};

use cells::{ArrayNo, CellArray, CellsFault, Directory};
use operator::Control;
use std::alloc::{AllocError, Global};

/// What a server has now: the arrays, and the appids of the halted apps.
#[derive(Drop)]
pub(crate) struct News {
    pub(crate) directory: Directory,
    pub(crate) halted: Vec<String>,
}

impl News {
    /// What a control has.
    pub(crate) fn of(alloc: Global, control: &Control) -> Result<News, AllocError> {
        let Ok(directory) = directory_of(alloc, control.arrays()) else {
            return Err(AllocError);
        };
        let halted = appids_of(alloc, control.halted())?;
        Ok(News { directory, halted })
    }

    pub(crate) fn copy(&self, alloc: Global) -> Result<News, AllocError> {
        let Ok(directory) = self.directory.copy(alloc) else {
            return Err(AllocError);
        };
        let halted = appids_of(alloc, &self.halted)?;
        Ok(News { directory, halted })
    }
}

// The arrays of a directory, declared once more, in their order.
fn directory_of(alloc: Global, arrays: &[CellArray]) -> Result<Directory, CellsFault>
    requires { IsDirectory arrays.now }
{
    let mut directory = Directory::new(alloc);
    for place in 0..arrays.len() {
        declare_one(alloc, &mut directory, &arrays[place])?;
    }
    Ok(directory)
}

fn declare_one(
    alloc: Global,
    directory: &mut Directory,
    array: &CellArray,
) -> Result<ArrayNo, CellsFault>
    requires { HasRanges array.now.width array.now.length array.now.quota }
{
    let name = array.name.as_str();
    directory.declare(alloc, name, array.width, array.length, array.quota)
}

fn appids_of(alloc: Global, appids: &[String]) -> Result<Vec<String>, AllocError> {
    let mut copies = Vec::new(alloc);
    for appid in appids {
        copies.push(String::from_str(alloc, appid.as_str())?)?;
    }
    Ok(copies)
}
