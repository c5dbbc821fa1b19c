//! The ruleset of a server, which is swapped while it serves, by read-copy-update.
//!
//! One publisher installs rulesets, numbered from 1. Up to 65 watchers, in threads of their own,
//! read them without waiting. Two things are shared. `left_right` publishes one ruleset with its
//! generation, which readers copy out while the publisher prepares the next. A book (`logbook`)
//! lists all that was installed, in order. It exists only in the proofs, except for one word, its
//! length. It only grows: a list that was read once is a prefix of every later one.
//!
//! A publish appends its ruleset to the list after the last step that can fail, and before any
//! reader gets the ruleset. So each published ruleset comes with the list of all installs up to it.
//! What a watcher has read, what a notice has and what was installed are prefixes of one list.
//!
//! See docs/SPECIFICATION.md, "The published ruleset".
#![tactic(auto)]

mod book;
mod known_prefix;
mod laws;
mod list_end;
mod next;
mod notice;
mod published_ruleset;
mod publisher;
mod publisher_id;
mod seats;
mod showing;
mod swap_fault;
mod watcher;

pub use known_prefix::Generation;
pub use laws::generations_monotone;
pub use notice::Notice;
pub use publisher::Publisher;
pub use swap_fault::SwapFault;
pub use watcher::Watcher;
