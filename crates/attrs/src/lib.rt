//! The facts of one app of an Omaha 3.1 request at a moment, in a rollout program's form: a context
//! of 64 bytes, and texts by number.
//!
//! See docs/SPECIFICATION.md, "The context".
#![tactic(auto)]

mod app_context;
mod attributes;
mod bucket;
mod context;
mod facts;
mod hash;
mod helpers;
mod kept;
mod moment;
mod shared_facts;
mod text;
mod version;
mod vocabulary;

pub use attributes::{AttrFault, Attrs};
pub use bucket::{
    Bucket, cohort_bucket, cohort_preserves_bucket, four_digits, hashed_bucket, named_or_hashed,
};
pub use context::Context;
pub use facts::{AppFacts, RequestFacts};
pub use hash::fnv1a;
pub use helpers::{helper_attr_is, helper_attr_len, helper_bucket};
pub use moment::{Elapsed, Moment};
pub use shared_facts::SharedFacts;
pub use text::Text;
pub use version::read_version;
pub use vocabulary::{Attribute, Flag, attribute_named, flag_named};
