//! What a server serves: its last load, the apps that are halted, and its arrays; and whether it
//! has to stop. Only its operator changes them, and a request changes all that belongs to it, or
//! nothing.

ghost use Rattle.std.specs.Prelude.{◌≡◌, All, IfOk, IfErr, OnErr, OnOk, false, map};
ghost use Rattle.std.specs.Prelude.{string_bytes};
ghost use Rattle.operator.specs.Control.{IsInstalled, IsInstalledWith, IsNotInstalled};
ghost use Rattle.operator.specs.Control.{IsRefusedLoad, stopping};

use crate::last_load::LastLoad;
use crate::loader::Loader;
use crate::reply::OperatorRefusal;
use access_log::Utc;
use cells::{CellArray, Directory};
use halts::served_rules;
use hot_swap::{Generation, Notice, Publisher};
use ruleset::{LoadedRuleset, Ruleset};
use std::alloc::{AllocError, Global};
use std::marker::Model;
use std::mem;
use std::sync::{Arc, Wait};

/// The publisher of a server's rulesets, its last load, its halted apps, and the arrays that its
/// loads have declared. `close` ends it.
pub struct Control {
    publisher: Publisher,
    directory: Directory,
    last: LastLoad,
    /// The appids of the halted apps.
    halted: Vec<String>,
    /// Whether a stop was requested.
    is_stopping: bool,
}

impl Model for Control {
    ghost use Rattle.std.specs.Prelude.{map, string_bytes};
    ghost use Rattle.operator.specs.Control.{Controlled};

    ghost Value = { Controlled };

    ghost view = { λ c. record {
      publishing = c.publisher;
      arrays = c.directory;
      last = c.last;
      halted = map string_bytes c.halted.items;
      is_stopping = c.is_stopping;
    } };
}

impl Control {
    ghost use Rattle.cells.specs.Directory.{IsDirectory};
    ghost use Rattle.hot_swap.specs.Published.{IsLatest};
    ghost use Rattle.ruleset.specs.Rules.{IsRuleset};

    /// The control of a server that serves this publisher's ruleset, over these arrays. It was
    /// loaded as `last` says, while these apps are halted, the one that was halted last first. The
    /// publisher's ruleset has to be the loaded one as it is served then; no clause requires it.
    pub fn new(
        publisher: Publisher,
        directory: Directory,
        last: LastLoad,
        halted: Vec<String>,
    ) -> Control
        ensures publishing { result.publishing ≡ publisher }
        ensures arrays { result.arrays ≡ directory }
        ensures last { result.last ≡ last }
        ensures halted { result.halted ≡ map string_bytes halted.items }
        ensures goes_on { result.is_stopping ≡ false }
    {
        Control {
            publisher,
            directory,
            last,
            halted,
            is_stopping: false,
        }
    }

    /// Law. The invariants of the publisher and of the directory.
    pub fn invariant_law(&self)
        ensures last { IsLatest self.now.publishing.known
            self.now.publishing.latest.generation self.now.publishing.latest.rules }
        ensures sound { All IsRuleset self.now.publishing.known.rulesets }
        ensures directory { IsDirectory self.now.arrays }
    {
        self.publisher.invariant_law();
        let _arrays = self.directory.arrays();
    }

    /// The generation that was installed last.
    pub fn generation(&self) -> Generation
        ensures { result ≡ self.now.publishing.latest.generation }
    {
        self.publisher.generation()
    }

    /// The ruleset that was installed last: a halted app has the program that chooses none.
    pub fn ruleset(&self) -> &Ruleset
        ensures { result.now ≡ self.now.publishing.latest.rules }
    {
        self.publisher.ruleset()
    }

    /// What was loaded last.
    pub fn last(&self) -> &LastLoad
        ensures { result.now ≡ self.now.last }
    {
        &self.last
    }

    /// The appids of the halted apps, the one that was halted last first.
    pub fn halted(&self) -> &[String]
        ensures { map string_bytes result.now ≡ self.now.halted }
    {
        self.halted.as_slice()
    }

    /// Whether a stop was requested.
    pub fn is_stopping(&self) -> bool
        ensures { result ≡ self.now.is_stopping }
    {
        self.is_stopping
    }

    /// Notes that a stop was requested.
    pub(crate) fn stop(&mut self)
        ensures { self.new ≡ stopping self.old }
    {
        self.is_stopping = true;
    }

    /// A notice of all that was installed, for the publisher's watchers to learn.
    pub fn tell(&self) -> Notice
        ensures { result ≡ self.now.publishing.known }
    {
        self.publisher.tell()
    }

    /// The arrays, in the order of their declarations.
    pub fn arrays(&self) -> &[CellArray]
        ensures arrays { result.now ≡ self.now.arrays }
        ensures directory { IsDirectory result.now }
    {
        self.directory.arrays()
    }

    /// Takes the arrays out of the control of a server that has ended.
    pub fn take_arrays(&mut self, alloc: Global) -> Directory
        ensures { result ≡ self.old.arrays }
    {
        mem::replace(&mut self.directory, Directory::new(alloc))
    }

    /// Takes the appids of the halted apps out of the control of a server that has ended.
    pub fn take_halted(&mut self, alloc: Global) -> Vec<String>
        ensures halted { map string_bytes result.items ≡ self.old.halted }
        ensures arrays { self.new.arrays ≡ self.old.arrays }
    {
        mem::replace(&mut self.halted, Vec::new(alloc))
    }

    /// Loads the manifest at a path, and installs its ruleset as the next generation, with the same
    /// apps halted. If the load is refused nothing changes. It may wait for readers of the ruleset
    /// before the last. Only `perform` calls it, for a line that requests it, at this time.
    pub(crate) fn load<R: Wait, L: Loader>(
        &mut self,
        rt: &R,
        alloc: Global,
        now: Utc,
        loader: &L,
        path: &str,
    ) -> Result<Generation, OperatorRefusal<L::Fault>>
        ensures done { IfOk result
            (λ n. IsInstalled (L.loads loader.now) path.now self.old n self.new) }
        ensures time { OnOk result (self.new.last.time ≡ now) }
        ensures fault { IfErr result (IsRefusedLoad (L.loads loader.now) path.now self.old) }
        ensures same { OnErr result (self.new ≡ self.old) }
    {
        let LoadedRuleset {
            rules,
            directory,
            digest,
        } = match loader.load(alloc, path, &self.directory) {
            Ok(loaded) => loaded,
            Err(fault) => return Err(OperatorRefusal::Load(fault)),
        };
        let Ok(last) = last_load(alloc, rules, digest, path, now) else {
            return Err(OperatorRefusal::Memory);
        };
        let Ok(served) = served_rules(alloc, &last.rules, self.halted()) else {
            return Err(OperatorRefusal::Memory);
        };
        match self.publisher.install(rt, served) {
            Ok(generation) => {
                self.directory = directory;
                self.last = last;
                Ok(generation)
            }
            Err(fault) => Err(OperatorRefusal::Install(fault)),
        }
    }

    /// Installs the last load once more, while these apps are halted. It may wait as a load does.
    pub(crate) fn install<R: Wait, F>(
        &mut self,
        rt: &R,
        alloc: Global,
        halted: Vec<String>,
    ) -> Result<Generation, OperatorRefusal<F>>
        ensures done { IfOk result
            (λ n. IsInstalledWith (map string_bytes halted.items) self.old n self.new) }
        ensures fault { IfErr result (IsNotInstalled self.old) }
        ensures same { OnErr result (self.new ≡ self.old) }
    {
        let Ok(served) = served_rules(alloc, &self.last.rules, &halted) else {
            return Err(OperatorRefusal::Memory);
        };
        match self.publisher.install(rt, served) {
            Ok(generation) => {
                self.halted = halted;
                Ok(generation)
            }
            Err(fault) => Err(OperatorRefusal::Install(fault)),
        }
    }

    /// Waits for the readers of a ruleset, and drops the publisher and the arrays. The publisher's
    /// watchers then get no ruleset.
    pub fn close<R: Wait>(self, rt: &R) {
        let Control {
            publisher,
            directory: _directory,
            last: _last,
            halted: _halted,
            is_stopping: _is_stopping,
        } = self;
        publisher.close(rt);
    }
}

// What a load of this path gave.
fn last_load(
    alloc: Global,
    rules: Ruleset,
    digest: [u8; 32],
    path: &str,
    time: Utc,
) -> Result<LastLoad, AllocError>
    ensures { IfOk result (λ load. load
        ≡ record { rules = rules; digest = digest; path = path.now; time = time }) }
{
    let Ok(path) = String::from_str(alloc, path) else {
        return Err(AllocError);
    };
    let Ok(rules) = Arc::new(alloc, rules) else {
        return Err(AllocError);
    };
    Ok(LastLoad {
        rules,
        digest,
        path,
        time,
    })
}
