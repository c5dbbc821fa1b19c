//! What a server returns once it has ended.

use crate::accept::OperatorEnd;
use cells::Directory;
use hot_swap::{Generation, Notice, Watcher};

/// The passes, which are ghost tokens, and the watchers, with what was installed.
#[derive(Drop)]
pub struct Returned<P: Drop> {
    /// The operator's pass, and how its thread ended.
    pub operator: P,
    pub end: OperatorEnd,
    /// The workers, in their order.
    pub workers: Vec<(P, Watcher)>,
    /// All rulesets that were installed by then.
    pub published: Notice,
    /// The generation that was installed last.
    pub generation: Generation,
    /// The arrays that were declared by then.
    pub directory: Directory,
    /// The appids of the apps that were halted by then.
    pub halted: Vec<String>,
}
