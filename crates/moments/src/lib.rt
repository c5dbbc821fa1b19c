//! Moments as an operator names them: by how long ago, or by a time by RFC 3339. Also the times in
//! a log.
#![tactic(auto)]

mod calendar;
mod moment;
mod rfc3339;

pub use calendar::{CivilDate, minute_in};
pub use moment::{NamedTime, moment_in, time_text};
pub use rfc3339::second_of_time;
