//! The chart of a server's log over time, in SVG. For each bin of time it shows the share of each
//! version in an app's update checks and offers, and which share of its own installs failed. Loads
//! are marked.
//!
//! See docs/PROGRAM.md, "report".
#![tactic(auto)]

// How a chart is made. A report counts by the minute and by the hour. The table by minute is used
// if it is complete and spans a short enough time. That time is divided into bins, and the rows of
// each bin are added up. A version's layer begins above the layers before it and reaches to the
// top, and the next layer covers what is above the version's share.

mod app_axis;
mod app_layers;
mod app_panel;
mod app_strips;
mod axis;
mod bins;
mod counts;
mod course;
mod course_marks;
mod layers;
mod legend;
mod load_marks;
mod marks;
mod minute_text;
mod newest;
mod page_strip;
mod picture;
mod series_rows;
mod steps;
mod strips;
mod times;
mod version_course;
mod versions;

pub use app_strips::draw_app;
pub use course_marks::{CourseNotes, StepMark};
pub use legend::VersionCounts;
pub use load_marks::is_load_among;
pub use newest::Outcomes;
pub use page_strip::class_of;
pub use picture::draw_course;
pub use times::Times;
pub use version_course::{VersionCourse, asks_of_app, versions_of_app};
