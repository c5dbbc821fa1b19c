//! The space of two rules of an app: what their tests distinguish among machines that request an
//! update, and among states of the cells with a quota.
//!
//! See docs/RULES.md.
#![tactic(auto)]

// Each test of a rule is about one number of a machine in a state: its version, a day, its bucket,
// a flag, the place of a text, or how many takes a cell grants. Such a number is a coordinate. A
// dimension is a coordinate with the cells into which both rules cut its numbers. No test
// distinguishes the numbers of a cell.
//
// Dimensions are collected from the tests without a contract (`naming.rt`). A plan is the rule with
// tests on cells (`plan.rt`, `plan_test.rt`). It is made only if each test's dimension has the cuts
// that the test needs, so the proof depends only on that check.
//
// Some coordinates depend on each other, such as the buckets under several salts. They are in one
// group, which lists the tuples of cells that a machine can have (`group.rt`). It is made from all
// combinations that a machine can have (`grouping.rt`): a tuple too many would only give a row
// about nobody; a missing one would leave a machine without a row.

mod bounds;
mod combination;
mod coordinate;
mod dimension;
mod family;
mod fits;
mod group;
mod grouping;
mod naming;
mod number_line;
mod plan;
mod plan_test;
mod space;
mod test_line;
mod work;

pub use bounds::{Bounds, CellBound, RuleSide};
pub use coordinate::Coordinate;
pub use dimension::Dimension;
pub use group::{Group, Tuple};
pub use number_line::decides;
pub use plan::{Plan, PlanCondition, PlanStatement, PlanStep};
pub use plan_test::{PlanTest, number_comparison_at};
pub use space::{Space, space_of};
pub use test_line::NumberComparison;
pub use work::Work;
