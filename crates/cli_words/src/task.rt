//! The commands that print their output and end.

use cli_base::{DeclaredShape, RunArgs};
use operator_request::OperatorRequest;

/// Any command but `serve`.
#[derive(Drop)]
pub enum Task<'a> {
    /// Assemble the text of one file into another.
    Assemble {
        text: &'a str,
        out: &'a str,
    },
    /// Compile the rule of one file into another.
    Compile {
        text: &'a str,
        shape: DeclaredShape,
        out: &'a str,
    },
    /// List the instructions of a file's bytes.
    List {
        path: &'a str,
    },
    /// Play a script on a world that begins with a manifest's ruleset.
    Replay {
        manifest: &'a str,
        script: &'a str,
    },
    /// Verify a file's program, and run it.
    Run(RunArgs<'a>),
    /// Send a request to a server's operator port.
    Send {
        request: OperatorRequest<'a>,
        port: u16,
    },
    /// Stop a server, and wait until it has ended.
    StopAndWait {
        port: u16,
    },
    /// Verify a file's program.
    Verify {
        path: &'a str,
        shape: DeclaredShape,
    },
}
