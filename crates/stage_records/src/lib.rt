//! The actions of `stage`, and its steps as they are recorded: what a step does, who took it and
//! why, and the files that it replaces.
//!
//! docs/OPERATING.md describes stages.
#![tactic(auto)]

// A record's text is made without a contract and then read back. What is read is compared with the
// step, and a text that doesn't read back isn't returned. So no lemma is about texts.

mod action;
mod file_state;
mod record_reader;
mod record_writer;
mod same_step;
mod step;

pub use action::StageAction;
pub use file_state::FileState;
pub use record_reader::read_step;
pub use record_writer::step_record;
pub use step::{ReplacedFile, StagingStep, StepAction, last_step};
