//! The commands of the program, by name.

/// A command.
#[derive(Clone, Copy)]
pub enum Verb {
    Assemble,
    Cells,
    Compile,
    Halt,
    List,
    Load,
    Replay,
    Resume,
    Run,
    Serve,
    Show,
    State,
    Stop,
    Verify,
}
