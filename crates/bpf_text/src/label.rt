//! Labels and their slots.

ghost use Rattle.std.specs.Prelude.{◌≡◌, Some, OnOk};
ghost use Rattle.bpf_text.specs.Labels.{slot_at, AddsLabel};

use std::alloc::{AllocError, Global};
use std::collections::BTreeMap;

/// The slot of each label.
pub type Labels<'a> = BTreeMap<&'a [u8], u16>;

/// The slot of a label.
pub fn label_slot<'a>(labels: &Labels<'a>, name: &'a [u8]) -> Option<u16>
    ensures { result ≡ slot_at labels.now name.now }
{
    labels.get(&name).copied()
}

/// Adds a label.
pub fn add_label<'a>(labels: &mut Labels<'a>, name: &'a [u8], slot: u16) -> Result<(), AllocError>
    ensures { OnOk result (AddsLabel labels.old labels.new (Some name.now) slot) }
{
    labels.insert(name, slot)?;
    Ok(())
}
