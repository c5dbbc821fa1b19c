//! Files of counters, in memory and on the device: what is committed is what the next start reads.

use crate::files::shown;
use counters_file::{
    Contents, CountersFault, DeviceFile, KeptFile, MemoryFile, ReadFault, commit, file_text,
    read_contents, read_counters,
};
use std::alloc::Global;
use std::test::Fail;

const TEXT: &str = "\
rollout counters 1
stopped
halted caf%C3%A9%20%25%09
halted x
array early 64 2 500
array seen 32 1
early 1 283
seen 0 12
end
";

fn counters(alloc: Global) -> Result<Contents, CountersFault> {
    match read_contents(alloc, TEXT) {
        Ok(contents) => Ok(contents),
        Err(ReadFault::Damaged { line }) => Err(CountersFault::Damaged { line }),
        Err(ReadFault::Memory) => Err(CountersFault::Memory),
    }
}

/// Commits the counters of the text, of a server that was stopped or that serves.
fn keep<F: KeptFile>(alloc: Global, file: &mut F, was_stopped: bool) -> Result<(), CountersFault> {
    let contents = counters(alloc)?;
    commit(
        alloc,
        file,
        was_stopped,
        &contents.halted,
        &contents.directory,
        &contents.values,
    )
}

/// Whether the file has these counters, of a server that was stopped, or that serves.
fn has_them<F: KeptFile>(
    alloc: Global,
    file: &F,
    was_stopped: bool,
) -> Result<bool, CountersFault> {
    let Some(contents) = read_counters(alloc, file)? else {
        return Ok(false);
    };
    let is_escaped = match contents.halted.first() {
        Some(appid) => appid.as_str() == "caf\u{e9} %\t",
        None => false,
    };
    let same_end = contents.was_stopped == was_stopped;
    match file_text(
        alloc,
        true,
        &contents.halted,
        &contents.directory,
        &contents.values,
    ) {
        Ok(text) => Ok(is_escaped && same_end && text.as_str() == TEXT),
        Err(_) => Err(CountersFault::Memory),
    }
}

/// Whether there is none before the first commit, and then that of a server that serves, and that
/// of one that was stopped.
fn is_kept<F: KeptFile>(alloc: Global, file: &mut F) -> Result<bool, CountersFault> {
    if read_counters(alloc, &*file)?.is_some() {
        return Ok(false);
    }
    keep(alloc, file, false)?;
    if !has_them(alloc, &*file, false)? {
        return Ok(false);
    }
    keep(alloc, file, true)?;
    has_them(alloc, &*file, true)
}

fn kept_in_memory(alloc: Global) -> bool {
    let mut file = MemoryFile::none(alloc);
    matches!(is_kept(alloc, &mut file), Ok(true))
}

/// Also whether another server can't have the file meanwhile, and can afterwards.
fn kept_on_device(rt: &HostRuntime) -> Result<bool, CountersFault> {
    let mut file = DeviceFile::lock(rt, "kept.txt")?;
    let is_kept = is_kept(rt.alloc(), &mut file)?;
    let is_refused = matches!(DeviceFile::lock(rt, "kept.txt"), Err(CountersFault::InUse));
    drop(file);
    let _file = DeviceFile::lock(rt, "kept.txt")?;
    Ok(is_kept && is_refused)
}

#[test]
fn counters_are_kept(rt: HostRuntime) -> Result<(), Fail> {
    shown(kept_in_memory(rt.alloc()), "a file in memory")?;
    shown(
        matches!(kept_on_device(&rt), Ok(true)),
        "a file of the device",
    )
}
