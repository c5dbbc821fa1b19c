//! Basic blocks in topological order. A program that has no cycle, but whose jumps lead backward,
//! is written with its blocks in an order in which every jump leads forward.
//!
//! See docs/PROGRAM.md, "Refusals".
#![tactic(auto)]

mod disorder;
mod kept;
mod laws;
mod leaving;
mod order;
mod plan;
mod reach;
mod read;
mod ready;
mod same;
mod write;

pub use laws::{order_has_no_cycle, runs_preserved};
pub use order::ordered;
