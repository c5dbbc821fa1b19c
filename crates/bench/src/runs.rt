//! Running a program over and over, for ten apps in turn. A run allocates nothing.

ghost use Rattle.std.specs.Prelude.{◌≡◌, ◌<◌, ◌≤◌, map, length, IfOk};
ghost use Rattle.attrs.specs.Hash.{with_byte};
ghost use Rattle.bench.specs.Runs.{AreApps, AreRuns, IsBenchApp, RunsOnce};

use attrs::{Attrs, fnv1a};
use bpf_machine::Run;
use bpf_verify::Verified;
use cells::{PlainCells, PlainPass};
use std::alloc::{AllocError, Global};
use std::sync::Arc;

const PRIME: u64 = 0x100_0000_01b3;

/// The hash by FNV-1a with one more byte: the choices aren't kept in a list.
fn hash_more(hash: u64, byte: u8) -> u64
    ensures { result ≡ with_byte hash byte }
{
    (hash ^ byte as u64).wrapping_mul(PRIME)
}

/// Totals of runs: their instructions, and the hash of their choices.
#[derive(Clone, Copy)]
pub struct RunTotals {
    pub instructions: u64,
    pub choices: u64,
}

/// App `k` of the ten.
fn app_at(alloc: Global, k: u16) -> Result<Arc<Attrs>, AllocError>
    requires { k < 10 }
    ensures { IfOk result (λ app. IsBenchApp k app.value) }
{
    let Ok(attrs) = Attrs::plain(alloc, "", None, 1000 * k + 500) else {
        return Err(AllocError);
    };
    let Ok(attrs) = Arc::new(alloc, attrs) else {
        return Err(AllocError);
    };
    Ok(attrs)
}

/// The ten apps: their buckets are 500, 1500 and so on.
pub fn apps(alloc: Global) -> Result<Vec<Arc<Attrs>>, AllocError>
    ensures { IfOk result (λ apps. AreApps (map (λ a. a.value) apps.items)) }
{
    let mut apps = Vec::new(alloc);
    for k in 0..10 {
        let Ok(()) = apps.push(app_at(alloc, k)?) else {
            return Err(AllocError);
        };
    }
    Ok(apps)
}

/// One run of the program for an app, on these cells: its choice, and the number of its
/// instructions.
fn run_once(
    program: &Arc<Verified>,
    app: &Arc<Attrs>,
    cells: &PlainCells,
    pass: &mut PlainPass,
) -> Result<(u8, u32), AllocError>
    ensures runs { IfOk result (λ c.
        RunsOnce program.now.value app.now.value pass.old pass.new c.0 c.1) }
    ensures short { IfOk result (λ c. c.1 ≤ 4096) }
{
    let accepted: &Verified = program;
    accepted.invariant_law();
    let program = Arc::try_clone(program)?;
    let app = Arc::try_clone(app)?;
    Ok(Run::start(program, app).run(cells, pass))
}

/// Runs the program `times` times, for each app in turn, on cells that open at 0.
// open: whether an allocation fails.
pub fn run_times(
    alloc: Global,
    program: &Arc<Verified>,
    apps: &[Arc<Attrs>],
    times: u32,
) -> Result<RunTotals, AllocError>
    requires { length apps.now ≡ 10 }
    ensures { IfOk result (AreRuns program.now.value (map (λ a. a.value) apps.now) times) }
{
    let Ok((cells, mut pass)) = PlainCells::new(alloc) else {
        return Err(AllocError);
    };
    let mut tally = RunTotals {
        instructions: 0,
        choices: fnv1a(&[]),
    };
    for n in 0..times {
        let (choice, count) = run_once(program, &apps[n as usize % 10], &cells, &mut pass)?;
        tally = RunTotals {
            instructions: tally.instructions + count as u64,
            choices: hash_more(tally.choices, choice),
        };
    }
    Ok(tally)
}
