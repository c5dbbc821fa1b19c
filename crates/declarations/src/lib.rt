//! Arrays of counters as the owner of a server writes them, and their declaration in a directory:
//! all in order, or the first that is refused.
//!
//! See docs/SPECIFICATION.md, "Counters".
#![tactic(auto)]

mod declaration;
mod declare;
mod laws;
mod parts;
mod spec;

pub use declaration::ArrayDeclaration;
pub use declare::{RefusedArray, declare_all};
pub use laws::lists_declare_one_way;
pub use parts::parts_of;
pub use spec::{SpecFault, read_fields, read_spec};
