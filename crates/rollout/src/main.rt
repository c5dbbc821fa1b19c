//! The program `rollout`: it serves updates by a manifest's rules, and sends requests to a running
//! server. It also replays scripts, and assembles, compiles, lists, verifies and runs single
//! programs. `command` of the library `cli_commands` does what the words request.
#![tactic(auto)]

use cli_base::unreadable_words;
use cli_commands::{Device, command};
use cli_words::words_of;
use std::process::ExitCode;

fn main(rt: HostRuntime) -> ExitCode {
    let mut out = rt.stdout();
    let mut err = rt.stderr();
    let status = match words_of(&rt) {
        Ok(words) => command(&rt, &Device::new(&rt), words.as_slice(), &mut out, &mut err),
        Err(error) => unreadable_words(&error, &mut err),
    };
    ExitCode::from(status)
}
