//! Laws of the definitions, which no running code calls: the reported fault of a manifest itself is
//! the first of all its faults.

ghost use Rattle.std.specs.Prelude.{List, ℕ};
ghost use Rattle.why_refused_manifest.specs.FirstFault.{HasDuplicateFirst, HasSchemaErrorFirst};

/// Law: the reported schema error is the first of all schema errors.
pub fn first_schema_error()
    ensures { (bytes : List ℕ) → HasSchemaErrorFirst bytes }
{}

/// Law: the reported duplicate is the first of all duplicate names.
pub fn first_duplicate()
    ensures { (bytes : List ℕ) → HasDuplicateFirst bytes }
{}
