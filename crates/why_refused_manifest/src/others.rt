//! The further faults of a manifest itself: schema errors and duplicate names.

ghost use Rattle.std.specs.Prelude.{◌≡◌, map, drop, IfOk, IfSome};
ghost use Rattle.why_refused_manifest.specs.Others.{AreOtherDuplicates, AreOtherSchemaErrors};
ghost use Rattle.why_refused_manifest.specs.Others as specs;
ghost use Rattle.load.specs.declared.load_fault.LoadFault.{LoadFault};

use crate::duplicates::all_duplicates;
use crate::schema_errors::all_schema_errors;
use load::LoadFault;
use manifest::{DuplicateName, ManifestFault, Parsed, SchemaError};
use std::alloc::{AllocError, Global};

/// A reason why a document isn't a manifest.
trait Unfit: Drop {
    ghost fault_of: { Self → LoadFault };

    fn fault(self) -> LoadFault
        ensures { result ≡ fault_of self };
}

impl Unfit for SchemaError {
    ghost fault_of = { specs.fault_of_schema_error };

    fn fault(self) -> LoadFault {
        LoadFault::Manifest(ManifestFault::Field(self))
    }
}

impl Unfit for DuplicateName {
    ghost fault_of = { specs.fault_of_duplicate };

    fn fault(self) -> LoadFault {
        LoadFault::Manifest(ManifestFault::Duplicate(self))
    }
}

/// All schema errors but the first; None if an allocation fails, or without a document.
pub(crate) fn other_schema_errors(alloc: Global, parsed: &Parsed) -> Option<Vec<LoadFault>>
    ensures { IfSome result (λ v. AreOtherSchemaErrors parsed.now v.items) }
{
    let Parsed::Document(document) = parsed else {
        return None;
    };
    let Ok(schema_errors) = all_schema_errors(alloc, document) else {
        return None;
    };
    let Ok(faults) = faults_but_first(alloc, schema_errors) else {
        return None;
    };
    Some(faults)
}

/// All duplicate names but the first; None if an allocation fails, or without a document.
pub(crate) fn other_duplicates(alloc: Global, parsed: &Parsed) -> Option<Vec<LoadFault>>
    ensures { IfSome result (λ v. AreOtherDuplicates parsed.now v.items) }
{
    let Parsed::Document(document) = parsed else {
        return None;
    };
    let Some(duplicates) = all_duplicates(alloc, document) else {
        return None;
    };
    let Ok(faults) = faults_but_first(alloc, duplicates) else {
        return None;
    };
    Some(faults)
}

// The faults of all items but the first.
fn faults_but_first<U: Unfit>(alloc: Global, all: Vec<U>) -> Result<Vec<LoadFault>, AllocError>
    ensures { IfOk result (λ v. v.items ≡ map U.fault_of (drop 1 all.items)) }
{
    let mut faults = Vec::new(alloc);
    let mut left = all.into_iter();
    let _first = left.next();
    for unfit in left {
        faults.push(unfit.fault())?;
    }
    Ok(faults)
}
