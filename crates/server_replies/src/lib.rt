//! A server's replies, by their lines. That to `state` has `generation 7`, `digest 9f86..`,
//! `loaded TIME PATH`, `halted APPID` for each halted app, and `end`.
#![tactic(auto)]

mod facts;
mod reply_lines;

pub use facts::{ServerFacts, ServerReplies};
pub use reply_lines::{first_after, lines_of, path_of_load, text_after, time_of_load};
