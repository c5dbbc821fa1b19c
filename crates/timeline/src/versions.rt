//! The versions of an app, in the order of their texts.

ghost use Rattle.std.specs.Prelude.{◌≡◌, IfOk, map, string_bytes};
ghost use Rattle.timeline.specs.Versions as specs;

use crate::marks::rest_after;
use std::alloc::{AllocError, Global};
use std::collections::BTreeMap;

/// The versions of an app in the rows.
#[tactic(auto, using(crate::proofs::Written::text_further))]
pub(crate) fn versions_in_rows(
    alloc: Global,
    rows: &BTreeMap<String, u64>,
    app: &str,
) -> Result<Vec<String>, AllocError>
    ensures { IfOk result (λ versions. map string_bytes versions.items
        ≡ specs.versions_in_rows app.now rows.now.entries) }
{
    let mut versions = Vec::new(alloc);
    for (name, _count) in rows.iter() {
        if let Some(version) = rest_after(app, name.as_str()) {
            versions.push(String::from_str(alloc, version)?)?;
        }
    }
    Ok(versions)
}
