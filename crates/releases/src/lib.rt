//! Apps and their releases: the appid, and for each release its version, the URL of its files, and
//! a description of each file. Replies of Omaha 3.1 have these texts as the manifest has them.
//!
//! See docs/SPECIFICATION.md, "Manifests".
#![tactic(auto)]

mod appid;
mod package;
mod release;

pub use appid::{MOST_APPS, is_appid};
pub use package::Package;
pub use release::Release;
