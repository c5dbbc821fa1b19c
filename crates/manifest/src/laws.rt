//! A law of the definitions: bytes have one reading.

ghost use Rattle.std.specs.Prelude.{List, ℕ};
ghost use Rattle.manifest.specs.OneReading.{HasOneManifest};

/// Law: bytes have one manifest, or one fault.
pub fn one_reading()
    ensures { (bytes : List ℕ) → HasOneManifest bytes }
{}
