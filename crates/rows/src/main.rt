//! The rows: commands with the files that they read, and what each prints. They are data, the files
//! `data/*.rows`, which `reading.rt` describes; the words of this program name them. For each file
//! it prints how many rows it has, and each row whose output or status isn't the wanted one.
#![tactic(auto)]

mod background;
mod calling;
mod escapes;
mod judging;
mod logging;
mod loopback;
mod marks;
mod printed;
mod reading;
mod running;
mod steps;

use crate::logging::{Handles, Logging};
use crate::running::run_file;
use anyhow::Result;
use std::env;
use std::process::ExitCode;

/// Runs the rows of a file, and returns whether all are right. What is wrong with its text is
/// printed with its name.
fn run_named<T: Handles + 'static>(rt: &Logging<T>, name: &str) -> Result<bool> {
    match run_file(rt, name) {
        Ok(are_right) => Ok(are_right),
        Err(error) => {
            println!(&rt.rt; "{name}: {error}")?;
            Ok(false)
        }
    }
}

fn main(rt: HostRuntime) -> Result<ExitCode> {
    let names: Vec<String> = env::args(&rt)?.collect(rt.alloc())?;
    let runtime = Logging { rt, threads: rt };
    let mut status = ExitCode::SUCCESS;
    for name in names.iter().skip(1) {
        if !run_named(&runtime, name.as_str())? {
            status = ExitCode::FAILURE;
        }
    }
    Ok(status)
}
