//! The state of a report, as a text: what it has counted, and how much of each log.
#![tactic(auto)]

// The counts are made out of a text, and a text out of the counts, without a contract. Then the two
// are compared, and what doesn't agree isn't returned. So no lemma is about texts of JSON.

mod course;
mod course_text;
mod faults;
mod laws;
mod noting;
mod places;
mod row_moments;
mod shown;
mod spelling;
mod state_reader;
mod state_writer;

pub use course::{Course, CourseRows};
pub use faults::Faults;
pub use laws::{counts_continue, keeping_is_transitive};
pub use noting::note_place;
pub use places::LogPlace;
pub use state_reader::{ReportState, read_state};
pub use state_writer::state_text;
