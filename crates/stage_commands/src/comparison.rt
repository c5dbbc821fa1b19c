//! For whom the next manifest changes what the present one gives, with the counters of the servers.

ghost use Rattle.diff_manifests.specs.Opened.{AreKept};
ghost use Rattle.stage_commands.specs.Compared.{AreAllJudged};

use crate::counters::least_counters;
use crate::served_rows::push_all_rows;
use crate::stop_texts::{LOSES, not_compared};
use attrs::Elapsed;
use bounded_files::Disk;
use cell_assignments::{CellAssignment, read_assignments};
use diff_manifests::{DiffOptions, DiffOutput, OpenedBoth, diff_manifests};
use load::JudgedManifest;
use printing::TextBuffer;
use stage_servers::{Lines, StageCall, Stop, refused};
use stage_text::now_of;
use std::net::{Net, TcpStream};
use std::time::Clock;

// Today's number.
fn today<R: Clock>(rt: &R) -> u32 {
    let second = i64::try_from(now_of(rt)).unwrap_or(0);
    Elapsed::at(second).days
}

// Adds the rows of the comparison. Returns whether somebody may lose a release.
fn push_rows<R>(
    rt: &R,
    both: &OpenedBoth,
    cells: &[CellAssignment<'_>],
    text: &mut TextBuffer,
) -> Result<bool, Stop>
where
    R: AllocGlobal + Clock,
    requires { AreKept both.now }
{
    let options = DiffOptions {
        only: None,
        from_day: today(rt),
        json: false,
    };
    match diff_manifests(rt.alloc(), both, cells, &[], &options) {
        Ok(DiffOutput { text: rows, loses }) => {
            text.push(rows.as_str());
            drop(rows);
            Ok(loses)
        }
        Err(fault) => Err(not_compared(rt.alloc(), fault)),
    }
}

/// Prints what changes from today on, from one manifest to another, after the quotas that each
/// server has used, with the least values of their counters. Returns whether somebody may lose a
/// release.
pub(crate) fn push_comparison<R, D>(
    call: &StageCall<'_, R, D>,
    both: &OpenedBoth,
    lines: &mut Lines,
) -> Result<bool, Stop>
where
    R: AllocGlobal + Clock + Net<Stream = TcpStream>,
    requires { AreKept both.now }
{
    let counters = match least_counters(call, &both.new.arrays, lines) {
        Ok(counters) => counters,
        Err(stop) => return Err(stop),
    };
    let Ok(cells) = read_assignments(call.rt.alloc(), counters.as_str()) else {
        return Err(Stop::Memory);
    };
    push_rows(call.rt, both, &cells, &mut lines.text)
}

/// Prints what changes from today on, from what the servers serve or what is in place. A lost row,
/// or an app that isn't compared, is a refusal, unless `--anyway` is given.
#[tactic(auto, using(crate::proofs::Opening::both_kept))]
pub(crate) fn compare<R, D>(
    call: &StageCall<'_, R, D>,
    old: JudgedManifest,
    new: JudgedManifest,
    lines: &mut Lines,
) -> Result<(), Stop>
where
    R: AllocGlobal + Clock + Net<Stream = TcpStream>,
    D: Disk,
    requires old { AreAllJudged old }
    requires new { AreAllJudged new }
{
    let mut both = OpenedBoth { old, new };
    let lost = push_all_rows(call, &mut both, lines);
    drop(both);
    match lost {
        Ok(true) => lines.go_on_if(call.options.anyway, refused(call.rt.alloc(), LOSES)),
        Ok(false) => Ok(()),
        Err(stop) => Err(stop),
    }
}
