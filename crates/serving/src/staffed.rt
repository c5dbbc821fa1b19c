//! A server with all that it serves with, until the operator stops it.

ghost use Rattle.std.specs.Prelude.{◌≡◌, ◌+◌, ◌≤◌, [], IfOk, IfErr, IfSome, OnOk, length, map};
ghost use Rattle.std.specs.Prelude.{string_bytes, vec_capacity};
ghost use Rattle.std.specs.Io.KnownBytes.{Appends};
ghost use Rattle.std.specs.Option.{is_some};
ghost use Rattle.workers.specs.Texts.{serving_line};
ghost use Rattle.operator.specs.Control.{KnowOnlyItsArrays};
ghost use Rattle.serving.specs.Ended.{LeavesOneWorld};
ghost use Rattle.serving.specs.Staff.{IsStaff};
ghost use Rattle.serving.specs.Staffed.{IsEndFault};

use crate::ended::close_cells;
use crate::last_values::left_by;
use crate::serving_fault::ServingFault;
use crate::stored::run_stored;
use counter_store::CounterStore;
use counters_file::KeptFile;
use hot_swap::Watcher;
use kept_cells::KeptCells;
use operator::{Control, Loader, loads_monotone};
use restart_laws::servers_count_as_one;
use server_counters::Counters;
use shared_cells::{SharedCells, SharedPass, passes_gain_lists};
use std::io::Write;
use std::net::{Net, TcpListener, TcpStream};
use std::sync::Wait;
use std::thread::Threads;
use std::time::Clock;
use thread_laws::{threads_are_one_world, threads_grant_quotas};
use workers::{Ports, ServeOptions, answers_are_runs};

/// A server that has its counters, its publisher and its workers. `serve` or `close` ends it; it
/// isn't dropped otherwise.
pub struct StaffedServer {
    pub(crate) ports: Ports,
    pub(crate) cells: SharedCells,
    /// The operator's pass.
    pub(crate) pass: SharedPass,
    pub(crate) control: Control,
    pub(crate) workers: Vec<(SharedPass, Watcher)>,
    /// The buffer for all passes when they are returned.
    pub(crate) room: Vec<SharedPass>,
    /// The values of the counters: those that they opened with, and at the end their last ones.
    pub(crate) values: Vec<u64>,
    ghost staff: { IsStaff cells pass control.publishing.known workers.items },
    ghost only: { KnowOnlyItsArrays control },
    ghost empty: { room.items ≡ [] },
    ghost enough: { length workers.items + 1 ≤ vec_capacity room },
    ghost many: { length values.items ≡ 8192 },
}

impl StaffedServer {
    /// The two ports.
    pub fn ports(&self) -> &Ports
        ensures { result.now ≡ self.now.ports }
    {
        &self.ports
    }

    /// Serves until the operator stops the server, and returns the halted apps and all arrays, with
    /// the counters' last values; those that aren't 0 have a line in the log. With a store the
    /// counters are stored meanwhile, a reply that can't wait for that has status 503, and the
    /// store's file is returned. Once all threads exist, `out` gets the ready line, with the
    /// generation, by one write. Later rulesets are from the loader. Returns B4 if an allocation or
    /// a thread fails, before any client is answered and before anything is written. Returns B3 if
    /// `out` can't be written, and H2 if a worker's watcher can't be read at the end: the log then
    /// has this fault and the counters.
    ///
    /// By `world` the counters are this server's. What all threads did to them is one legal history
    /// from their opening values, that of one world, under rulesets that the operator's lines
    /// loaded one after the other. Its runs are those of answers, one list for each worker, in
    /// turn, under rulesets that never went back. Each run ended in time, with 0 or a release. Each
    /// quota is granted, and counts on from the servers before.
    // open: when B4, B3 or H2 is returned; that the log has the last values, and that the line
    // takes one write: tests.
    pub fn serve<H, L, F, O>(
        self,
        rt: &H,
        loader: &L,
        store: Option<CounterStore<F>>,
        service: ServeOptions<'_>,
        out: &mut O,
    ) -> Result<(Counters, Option<F>), ServingFault>
    where
        H: Threads + Wait + AllocGlobal + Clock + Sync,
        H: Net<Listener = TcpListener, Stream = TcpStream>,
        L: Loader,
        F: KeptFile + Send + Drop,
        O: Write,
        requires some { 1 ≤ length self.workers.items }
        requires few { length self.workers.items ≤ 64 }
        // The store begins with the server's counters.
        requires numbers { IfSome store (λ s. s.ledger.numbers ≡ self.cells.opening) }
        requires arrays { IfSome store (λ s. s.ledger.arrays ≡ self.control.arrays) }
        ensures world { IfOk result (λ left. LeavesOneWorld (is_some store) (L.loads loader.now)
            self.cells self.control (map string_bytes left.0.halted.items) left.0.directory
            left.0.values.items) }
        ensures printed { OnOk result (Appends (O.contents out.old) (O.contents out.new)
            (serving_line self.control.publishing.latest.generation)) }
        ensures fault { IfErr result IsEndFault }
    {
        passes_gain_lists();
        answers_are_runs();
        threads_are_one_world();
        threads_grant_quotas();
        servers_count_as_one();
        loads_monotone(loader);
        let StaffedServer {
            ports,
            cells,
            pass,
            mut control,
            workers,
            room,
            values,
        } = self;
        let cells = KeptCells::of(cells);
        let (back, file) = match run_stored(
            rt,
            ports,
            loader,
            &cells,
            store,
            service,
            pass,
            &mut control,
            workers,
            out,
        ) {
            Ok((back, file)) => (back, file),
            Err(fault) => {
                control.close(rt);
                return Err(fault);
            }
        };
        let ended = close_cells(cells.into_cells(), back, room);
        let left = left_by(rt, service.log, ended, values);
        control.close(rt);
        match left {
            Ok(counters) => Ok((counters, file)),
            Err(fault) => Err(fault),
        }
    }

    /// Ends a server that doesn't serve.
    pub fn close<H: Wait>(self, rt: &H) {
        let StaffedServer {
            ports: _ports,
            cells: _cells,
            pass: _pass,
            control,
            workers: _workers,
            room: _room,
            values: _values,
        } = self;
        control.close(rt);
    }
}
