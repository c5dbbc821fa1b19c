//! Requests and replies of Omaha 3.1 in JSON, by this project's profile of it: from the bytes of a
//! body to a request, or the first fault; and from a request, and what was found for its apps, to
//! the bytes of the reply.
//!
//! See docs/SPECIFICATION.md, "Requests".
#![tactic(auto)]

mod app;
mod app_members;
mod app_observer;
mod cohort;
mod found;
mod omaha_fault;
mod reading;
mod reply;
mod request;
mod request_members;
mod tokens;
mod update;
mod value;

pub use app_observer::{AppObserver, WrittenApp};
pub use found::FoundApp;
pub use omaha_fault::OmahaFault;
pub use reading::read_request;
pub use reply::found_text;
pub use request::Request;
pub use update::release_at;
