//! What a release's stages put in place: the file of an app that is halted or raised.
//!
//! docs/OPERATING.md describes stages, docs/RULES.md describes rules.
#![tactic(auto)]

// A step replaces an app's file whole, and no manifest is edited. A halt is one of two files, a
// rule or a program. It is proved that no load refuses them, and that nobody is offered a release.
//
// The text of a raised rule, and of one without some statements, is made and then read back by the
// parser of rules. What is read is compared with what is wanted, and a text that reads otherwise
// isn't returned.

mod cut;
mod halt;
mod halt_of_app;
mod halting;
mod known_offers;
mod leaving_out;
mod lifting;
mod named_apps;
mod offers;
mod raise_fault;
mod raising;
mod release_halt;
mod same_rule;
mod same_test;
mod threshold;
mod without_fault;

pub use halt::{halted_app, is_in_force, may_offer, surely_offers};
pub use halt_of_app::{app_of_any_halt, is_release_halted, is_resumable, last_halt};
pub use halting::halting_file;
pub use known_offers::known_offer;
pub use lifting::lifted_apps;
pub use named_apps::{is_named, push_app, push_once};
pub use raise_fault::RaiseFault;
pub use raising::raised_rule;
pub use release_halt::rule_without;
pub use without_fault::WithoutFault;
