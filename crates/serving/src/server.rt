//! From a manifest's path to a server that has all it needs except threads. What is wrong with the
//! manifest or with the ports is found before threads start.

ghost use Rattle.std.specs.Prelude.{◌≡◌, ◌≤◌, [], ◌∷◌, IfOk, IfErr, length, map, string_bytes};
ghost use Rattle.std.specs.Prelude.{false};
ghost use Rattle.cells.specs.Events.{AreCells};
ghost use Rattle.halts.specs.Halts.{served};
ghost use Rattle.load.specs.Loaded.{IsLoadedFrom};
ghost use Rattle.load.specs.Made.{IsMadeFrom};
ghost use Rattle.operator.specs.Control.{ServesLastLoad};
ghost use Rattle.ruleset.specs.Rules.{KnowsOnly};
ghost use Rattle.serving.specs.Manifests.{RefusesToServe};
ghost use Rattle.serving.specs.Staff.{IsLoadAtStart};
ghost use Rattle.serving.specs.Staffed.{IsStaffFault};

use crate::new_staff::staff;
use crate::serving_fault::ServingFault;
use crate::staffed::StaffedServer;
use bounded_files::ResourceFault;
use load::{Disk, load_with_digest};
use ruleset::LoadedRuleset;
use server_counters::Counters;
use std::net::{Net, TcpListener, TcpStream};
use std::sync::Wait;
use std::time::Clock;
use workers::{Ports, bind};

/// A server whose ruleset is loaded, and whose two ports listen.
pub struct Server {
    ports: Ports,
    loaded: LoadedRuleset,
    /// The path of its manifest.
    path: String,
    /// The appids of the apps that are halted when it starts.
    halted: Vec<String>,
    /// The values that its counters open with.
    values: Vec<u64>,
    ghost only: { KnowsOnly loaded.directory loaded.rules },
    ghost cells: { AreCells values.items },
}

// Not derived: a crate that drops one would prove the drop of each of its parts anew.
impl Drop for Server {
    fn drop(self) {
        let Self {
            ports: _ports,
            loaded: _loaded,
            path: _path,
            halted: _halted,
            values: _values,
        } = self;
    }
}

/// Loads the manifest at a path over the arrays of these counters, and binds both ports on
/// loopback; 0 is any free port. Returns the manifest's fault, or else B4 if the path can't be
/// copied, or B6 if a port can't be bound or too few descriptors are left for a server.
// open: the bytes of a device's files.
pub fn prepare<H, D>(
    rt: &H,
    disk: &D,
    path: &str,
    service: u16,
    operator: u16,
    counters: Counters,
) -> Result<Server, ServingFault>
where
    H: AllocGlobal + Net<Listener = TcpListener, Stream = TcpStream>,
    D: Disk,
    requires cells { AreCells counters.values.items }
    ensures loaded { IfOk result (λ s. IsLoadedFrom (D.known disk.now) path.now counters.directory
        s.loaded.rules s.loaded.directory) }
    // The digest is that of the bytes that were judged.
    ensures made { IfOk result
        (λ s. IsMadeFrom (D.known disk.now) path.now counters.directory s.loaded) }
    ensures path { IfOk result (λ s. string_bytes s.path ≡ path.now) }
    ensures halted { IfOk result (λ s. s.halted ≡ counters.halted) }
    ensures values { IfOk result (λ s. s.values ≡ counters.values) }
    ensures refused { IfErr result
        (RefusesToServe (D.known disk.now) path.now counters.directory) }
{
    let Counters {
        halted,
        directory,
        values,
    } = counters;
    let loaded = match load_with_digest(rt.alloc(), disk, path, &directory) {
        Ok(loaded) => loaded,
        Err(refusal) => return Err(ServingFault::Manifest(refusal)),
    };
    let Ok(path) = String::from_str(rt.alloc(), path) else {
        return Err(ServingFault::Resource(ResourceFault::Memory));
    };
    match bind(rt, service, operator) {
        Ok(ports) => Ok(Server {
            ports,
            loaded,
            path,
            halted,
            values,
        }),
        Err(_) => Err(ServingFault::Bind),
    }
}

impl Server {
    /// The two ports.
    pub fn ports(&self) -> &Ports
        ensures { result.now ≡ self.now.ports }
    {
        &self.ports
    }

    /// The ruleset, with the digest of the manifest and of the files that it names, as they were
    /// judged.
    pub fn loaded(&self) -> &LoadedRuleset
        ensures { result.now ≡ self.now.loaded }
    {
        &self.loaded
    }

    /// The appids of the apps that are halted when it starts.
    pub fn halted(&self) -> &[String]
        ensures { result.now ≡ self.now.halted.items }
    {
        &self.halted
    }

    /// The values that its counters open with, by the numbers of their cells.
    pub fn values(&self) -> &[u64]
        ensures values { result.now ≡ self.now.values.items }
        ensures cells { AreCells result.now }
    {
        &self.values
    }

    /// The same server with these counters: its manifest is loaded anew over their arrays, and its
    /// ports stay bound. Returns the manifest's fault.
    // open: the bytes of a device's files.
    pub fn opened_with<H, D>(
        self,
        rt: &H,
        disk: &D,
        counters: Counters,
    ) -> Result<Server, ServingFault>
    where
        H: AllocGlobal,
        D: Disk,
        requires cells { AreCells counters.values.items }
        ensures loaded { IfOk result (λ s. IsLoadedFrom (D.known disk.now) (string_bytes self.path)
            counters.directory s.loaded.rules s.loaded.directory) }
        ensures made { IfOk result (λ s. IsMadeFrom (D.known disk.now) (string_bytes self.path)
            counters.directory s.loaded) }
        ensures ports { IfOk result (λ s. s.ports ≡ self.ports) }
        ensures path { IfOk result (λ s. s.path ≡ self.path) }
        ensures halted { IfOk result (λ s. s.halted ≡ counters.halted) }
        ensures values { IfOk result (λ s. s.values ≡ counters.values) }
        ensures refused { IfErr result
            (RefusesToServe (D.known disk.now) (string_bytes self.path) counters.directory) }
    {
        let Server {
            ports,
            loaded: _loaded,
            path,
            halted: _halted,
            values: _values,
        } = self;
        let Counters {
            halted,
            directory,
            values,
        } = counters;
        match load_with_digest(rt.alloc(), disk, path.as_str(), &directory) {
            Ok(loaded) => Ok(Server {
                ports,
                loaded,
                path,
                halted,
                values,
            }),
            Err(refusal) => Err(ServingFault::Manifest(refusal)),
        }
    }

    /// The server with `workers` workers, to serve the ruleset as generation 1. Returns S1 if the
    /// counters can't be allocated, H1 if the publisher or one of its watchers can't, and B4 if
    /// other memory can't.
    pub fn staffed<H>(self, rt: &H, workers: usize) -> Result<StaffedServer, ServingFault>
    where
        H: Wait + AllocGlobal + Clock,
        requires some { 1 ≤ workers }
        requires few { workers ≤ 64 }
        ensures ports { IfOk result (λ s. s.ports ≡ self.ports) }
        ensures first { IfOk result (λ s. s.control.publishing.latest.generation ≡ 1) }
        ensures rules { IfOk result (λ s. ServesLastLoad s.control) }
        ensures running { IfOk result (λ s. s.control.is_stopping ≡ false) }
        ensures known { IfOk result (λ s. s.control.publishing.known.rulesets
            ≡ served (map string_bytes self.halted.items) self.loaded.rules ∷ []) }
        ensures halted { IfOk result
            (λ s. s.control.halted ≡ map string_bytes self.halted.items) }
        ensures arrays { IfOk result (λ s. s.control.arrays ≡ self.loaded.directory) }
        ensures last { IfOk result
            (λ s. IsLoadAtStart self.loaded (string_bytes self.path) s.control.last) }
        ensures opening { IfOk result (λ s. s.cells.opening ≡ self.values.items) }
        ensures workers { IfOk result (λ s. length s.workers.items ≡ workers) }
        ensures fault { IfErr result IsStaffFault }
    {
        let Server {
            ports,
            loaded,
            path,
            halted,
            values,
        } = self;
        staff(rt, ports, loaded, path, halted, values, workers)
    }
}
