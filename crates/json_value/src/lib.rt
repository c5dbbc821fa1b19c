//! JSON values: the value of some bytes, an object that gets one member after another, and a value
//! as a line.
//!
//! The bytes are a request's body, a line of a log, or an event in such a line.
#![tactic(auto)]

mod object_builder;
mod reading;
mod writing;

pub use object_builder::ObjectBuilder;
pub use reading::read_json;
pub use writing::{json_line, push_value};
