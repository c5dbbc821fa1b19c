//! The staff of a server: its counters, the publisher of its rulesets with the directory of its
//! arrays, and its workers. These are made before anything is served.

ghost use Rattle.std.specs.Prelude.{◌≡◌, ◌≤◌, [], ◌∷◌, IfOk, IfErr, length, map, string_bytes};
ghost use Rattle.std.specs.Prelude.{false, vec_capacity};
ghost use Rattle.std.specs.Arc.{arc_value};
ghost use Rattle.cells.specs.Events.{AreCells};
ghost use Rattle.halts.specs.Halts.{served};
ghost use Rattle.operator.specs.Control.{ServesLastLoad};
ghost use Rattle.ruleset.specs.Rules.{KnowsOnly};
ghost use Rattle.serving.specs.Staff.{IsLoadAtStart};
ghost use Rattle.serving.specs.Staffed.{IsStaffFault};

use crate::serving_fault::ServingFault;
use crate::staffed::StaffedServer;
use crate::worker_list::worker_list;
use bounded_files::ResourceFault;
use halts::{halts_sound, served_rules};
use hot_swap::Publisher;
use operator::{Control, LastLoad};
use ruleset::{LoadedRuleset, Ruleset};
use server_log::utc_now;
use shared_cells::{SharedCells, SharedPass};
use std::alloc::Global;
use std::sync::{Arc, Wait};
use std::time::Clock;
use workers::Ports;

// Room for as many passes.
fn room_for(alloc: Global, count: usize) -> Result<Vec<SharedPass>, ServingFault>
    ensures items { IfOk result (λ room. room.items ≡ []) }
    ensures capacity { IfOk result (λ room. count ≤ vec_capacity room) }
    ensures fault { IfErr result IsStaffFault }
{
    match Vec::with_capacity(alloc, count) {
        Ok(room) => Ok(room),
        Err(_) => Err(ServingFault::Resource(ResourceFault::Memory)),
    }
}

// The ruleset, and what is served of it while these apps are halted.
fn first_rules(
    alloc: Global,
    rules: Ruleset,
    halted: &[String],
) -> Result<(Arc<Ruleset>, Arc<Ruleset>), ServingFault>
    ensures loaded { IfOk result (λ both. arc_value both.0 ≡ rules) }
    ensures served { IfOk result (λ both.
        arc_value both.1 ≡ served (map string_bytes halted.now) rules) }
    ensures fault { IfErr result IsStaffFault }
{
    let Ok(rules) = Arc::new(alloc, rules) else {
        return Err(ServingFault::Resource(ResourceFault::Memory));
    };
    match served_rules(alloc, &rules, halted) {
        Ok(served) => Ok((rules, served)),
        Err(_) => Err(ServingFault::Resource(ResourceFault::Memory)),
    }
}

/// A server at these ports, with `workers` workers, whose counters open with these values. While
/// these apps are halted, it serves this ruleset, which was loaded from the path, as generation 1;
/// nothing else is installed. Returns S1 if the counters can't be allocated, H1 if the publisher or
/// one of its watchers can't, and B4 if other memory can't.
// open: when B4 is returned; the time of the load.
pub fn staff<H>(
    rt: &H,
    ports: Ports,
    loaded: LoadedRuleset,
    path: String,
    halted: Vec<String>,
    values: Vec<u64>,
    workers: usize,
) -> Result<StaffedServer, ServingFault>
where
    H: Wait + AllocGlobal + Clock,
    requires some { 1 ≤ workers }
    requires few { workers ≤ 64 }
    requires cells { AreCells values.items }
    requires only { KnowsOnly loaded.directory loaded.rules }
    ensures ports { IfOk result (λ s. s.ports ≡ ports) }
    ensures first { IfOk result (λ s. s.control.publishing.latest.generation ≡ 1) }
    ensures rules { IfOk result (λ s. ServesLastLoad s.control) }
    ensures running { IfOk result (λ s. s.control.is_stopping ≡ false) }
    ensures known { IfOk result (λ s. s.control.publishing.known.rulesets
        ≡ served (map string_bytes halted.items) loaded.rules ∷ []) }
    ensures halted { IfOk result (λ s. s.control.halted ≡ map string_bytes halted.items) }
    ensures arrays { IfOk result (λ s. s.control.arrays ≡ loaded.directory) }
    ensures last { IfOk result (λ s. IsLoadAtStart loaded (string_bytes path) s.control.last) }
    ensures opening { IfOk result (λ s. s.cells.opening ≡ values.items) }
    ensures workers { IfOk result (λ s. length s.workers.items ≡ workers) }
    ensures fault { IfErr result IsStaffFault }
{
    halts_sound();
    let alloc = rt.alloc();
    let LoadedRuleset {
        rules,
        directory,
        digest,
    } = loaded;
    let (rules, served) = match first_rules(alloc, rules, &halted) {
        Ok(both) => both,
        Err(fault) => return Err(fault),
    };
    let room = room_for(alloc, workers + 1)?;
    let (cells, mut passes) = match SharedCells::opened(alloc, &values, workers + 1) {
        Ok(made) => made,
        Err(fault) => return Err(ServingFault::Cells(fault)),
    };
    let Some(pass) = passes.pop() else {
        unreachable!()
    };
    let mut publisher = match Publisher::new(rt, alloc, served, workers) {
        Ok(publisher) => publisher,
        Err(fault) => return Err(ServingFault::Publisher(fault)),
    };
    let last = LastLoad {
        rules,
        digest,
        path,
        time: utc_now(rt),
    };
    match worker_list(alloc, passes, &mut publisher) {
        Ok(workers) => Ok(StaffedServer {
            ports,
            cells,
            pass,
            control: Control::new(publisher, directory, last, halted),
            workers,
            room,
            values,
        }),
        Err(fault) => {
            publisher.close(rt);
            Err(fault)
        }
    }
}
