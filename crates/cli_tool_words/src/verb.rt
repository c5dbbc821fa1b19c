//! The commands of `rollout-tools`, by name.

/// A command.
#[derive(Clone, Copy)]
pub enum ToolVerb {
    Ask,
    Check,
    Completion,
    Diff,
    Explain,
    Order,
    Report,
    Simulate,
    Stage,
    Trace,
    Why,
}
