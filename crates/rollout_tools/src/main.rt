//! The program `rollout-tools`: it checks, simulates and tries manifests, reports on a server's
//! logs, and explains, traces and orders single programs. `command` of the library
//! `cli_tool_commands` does what the words request.
#![tactic(auto)]

use bounded_files::Device;
use cli_base::unreadable_words;
use cli_tool_commands::command;
use cli_tool_words::words_of;
use std::process::ExitCode;

fn main(rt: HostRuntime) -> ExitCode {
    let mut out = rt.stdout();
    let mut err = rt.stderr();
    let status = match words_of(&rt) {
        Ok(words) => command(&rt, &Device::new(&rt), words.as_slice(), &mut out, &mut err),
        Err(error) => unreadable_words(&error, &mut err),
    };
    ExitCode::from(status)
}
