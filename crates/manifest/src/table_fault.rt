//! Why a table wasn't read.

ghost use Rattle.std.specs.Prelude.{◌≡◌, IfOk};

use attrs::Text;
use std::alloc::{AllocError, Global};

/// A schema error of the table, or a failed allocation.
#[derive(Drop)]
pub enum TableFault<M> {
    SchemaError(M),
    Memory,
}

/// A copy of a text of the manifest.
pub(crate) fn copy(alloc: Global, text: &str) -> Result<Text, AllocError>
    ensures { IfOk result (λ t. t ≡ text.now) }
{
    Ok(Text::new(String::from_str(alloc, text)?))
}
