//! Why a manifest and its files give no ruleset.

ghost use Rattle.std.specs.Prelude.{Some};
ghost use Rattle.load.specs.Texts.{load_fault_text, path_fault_text};

use acceptance::{ProgramFault, RuleTextFault};
use bounded_files::ResourceFault;
use cells::CellsFault;
use manifest::ManifestFault;
use std::error::Error;
use std::fmt;

/// What is wrong, with the codes M1 to M8 that are printed. Arrays and apps are numbered from 1 in
/// the order of the manifest.
pub enum LoadFault {
    /// M1 to M3: the bytes aren't a manifest. The fault inside has more details than are printed.
    Manifest(ManifestFault),
    /// M4: the file of an app can't be read.
    File { app: usize },
    /// M5: the bytes of a file aren't a program for its app.
    Program { app: usize, fault: ProgramFault },
    /// M6: the text of a file isn't a rule for its app.
    Rule { app: usize, fault: RuleTextFault },
    /// M7: an array can't be declared: N1 or N2.
    Cells { array: usize, fault: CellsFault },
    /// M8: out of memory.
    Memory,
}

// Not derived: a crate that drops one would prove the drop of each of its parts anew.
impl Drop for LoadFault {
    fn drop(self) {
        match self {
            LoadFault::Manifest(fault) => drop(fault),
            LoadFault::File { app: _app } => {}
            LoadFault::Program {
                app: _app,
                fault: _fault,
            } => {}
            LoadFault::Rule {
                app: _app,
                fault: _fault,
            } => {}
            LoadFault::Cells {
                array: _array,
                fault: _fault,
            } => {}
            LoadFault::Memory => {}
        }
    }
}

impl fmt::Display for LoadFault {
    ghost output = { λ fault. Some (load_fault_text fault) };

    fn fmt<W: fmt::Write>(&self, f: &mut fmt::Formatter<W>) -> fmt::Result {
        match self {
            LoadFault::Manifest(fault) => write!(f, "{fault}"),
            LoadFault::File { app } => write!(f, "M4 File in app {app}"),
            LoadFault::Program { app, fault } => write!(f, "M5 Program {fault} in app {app}"),
            LoadFault::Rule { app, fault } => write!(f, "M6 Rule {fault} in app {app}"),
            LoadFault::Cells { array, fault } => write!(f, "M7 Cells {fault} in array {array}"),
            LoadFault::Memory => f.write_str("M8 Memory"),
        }
    }
}

impl fmt::Debug for LoadFault {
    fn fmt<W: fmt::Write>(&self, f: &mut fmt::Formatter<W>) -> fmt::Result {
        fmt::Display::fmt(self, f)
    }
}

impl Error for LoadFault {}

/// Why the manifest at a path gives no ruleset.
#[derive(Debug)]
pub enum PathFault {
    /// B3 and B4: the manifest can't be read, or an allocation for its bytes failed.
    Resource(ResourceFault),
    /// M1 to M8: the manifest and its files give no ruleset.
    Load(LoadFault),
}

// Not derived: a crate that drops one would prove the drop of each of its parts anew.
impl Drop for PathFault {
    fn drop(self) {
        match self {
            PathFault::Resource(_fault) => {}
            PathFault::Load(fault) => drop(fault),
        }
    }
}

impl fmt::Display for PathFault {
    ghost output = { λ fault. Some (path_fault_text fault) };

    fn fmt<W: fmt::Write>(&self, f: &mut fmt::Formatter<W>) -> fmt::Result {
        match self {
            PathFault::Resource(fault) => write!(f, "{fault}"),
            PathFault::Load(fault) => write!(f, "{fault}"),
        }
    }
}

impl Error for PathFault {}

/// Why an app has no program.
#[derive(Debug, Drop)]
pub enum AppFault {
    /// Its file can't be read.
    File,
    /// The bytes of its file aren't a program.
    Program(ProgramFault),
    /// The text of its file isn't a rule.
    Rule(RuleTextFault),
    /// Out of memory.
    Memory,
}
