//! Rulesets: the configuration of a server, which is its apps, each with a verified program and its
//! releases.
//!
//! See docs/SPECIFICATION.md, "The world".
#![tactic(auto)]

mod app;
mod app_lines;
mod loaded;
mod ruleset;

pub use app::App;
pub use app_lines::push_app_lines;
pub use loaded::LoadedRuleset;
pub use ruleset::Ruleset;
