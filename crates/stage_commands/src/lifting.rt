//! The halts that a step would lift.

ghost use Rattle.std.specs.Prelude.{◌≡◌, [], OnOk, false, map, string_bytes, true};

use crate::stop_texts::lifts;
use stage_servers::{Lines, Stop};
use std::alloc::Global;

fn are_none(named: &[String]) -> bool
    ensures { result ≡ true → map string_bytes named.now ≡ [] }
{
    match named {
        [] => true,
        [_, ..] => false,
    }
}

/// Refuses to lift the halts of these apps, unless `--anyway` is given.
pub(crate) fn stop_if_lifted(
    alloc: Global,
    lifted: Vec<String>,
    anyway: bool,
    lines: &mut Lines,
) -> Result<(), Stop>
    ensures { OnOk result (anyway ≡ false → map string_bytes lifted.items ≡ []) }
{
    if are_none(&lifted) {
        drop(lifted);
        return Ok(());
    }
    let stop = lifts(alloc, &lifted);
    drop(lifted);
    match lines.go_on_if(anyway, stop) {
        Ok(()) => Ok(()),
        Err(stop) => Err(stop),
    }
}
