//! The result of a step.

/// The choice that a program ends with: 0 for no update, or the number of a release, from 1 to 64.
pub type Choice = u8;

/// The result of a step.
#[derive(Clone, Copy, PartialEq, Eq)]
pub enum Progress {
    /// The run continues.
    Going,
    /// The run has ended with this choice.
    Done(Choice),
}
