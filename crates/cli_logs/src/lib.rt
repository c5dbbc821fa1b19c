//! The command on logs: `report`, over the files of a runtime.
#![tactic(auto)]

mod continuing;
mod drawing;
mod further_counts;
mod log_end;
mod log_part;
mod named_page;
mod new_lines;
mod page_file;
mod picture_file;
mod progress_lines;
mod report_fault;
mod report_form;
mod reporting;
mod same_places;
mod state_file;

pub use continuing::report_on_state;
pub use named_page::NamedPage;
pub use page_file::may_be_page;
pub use report_fault::ReportFault;
pub use report_form::ReportForm;
pub use reporting::{ReportOutput, report_logs};
