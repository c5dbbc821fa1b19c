//! All duplicate names of a manifest: of its arrays, and of its apps.

ghost use Rattle.std.specs.Prelude.{◌≡◌, ◌++◌, List, [], ◌∷◌, ℕ, map, IfOk, IfSome, OnOk};
ghost use Rattle.std.specs.Prelude.{if◌then◌else◌, not, ◌&&◌};
ghost use Rattle.std.specs.List.{list_any};
ghost use Rattle.std.specs.Str.{bytes_eq};
ghost use Rattle.toml.specs.View.{table_view};
ghost use Rattle.why_refused_manifest.specs.AllDuplicates.{HasAllDuplicates, duplicate_names};
ghost use Rattle.why_refused_manifest.specs.AllDuplicates as specs;
ghost use Rattle.manifest.specs.declared.manifest_fault.DuplicateName.{DuplicateName};
ghost use Rattle.manifest.specs.declared.manifest_fault.DuplicateName.TheVariants as duplicate;

use declarations::ArrayDeclaration;
use manifest::{AppEntry, DuplicateName, Manifest, Named, Quote, has_name, read_tables};
use std::alloc::{AllocError, Global};
use toml::Table;

/// All duplicate names of a manifest that has no schema error: those of arrays, and then appids. So
/// the first is the one that `read_manifest` returns. Returns `None` if an allocation fails, or if
/// there is a schema error.
// open: when the result is None: if an allocation fails, or the document has a schema error.
pub(crate) fn all_duplicates(alloc: Global, document: &Table) -> Option<Vec<DuplicateName>>
    ensures { IfSome result (λ v. HasAllDuplicates (table_view document.now) v.items) }
{
    let Ok(manifest) = read_tables(alloc, document) else {
        return None;
    };
    match duplicates_of(alloc, &manifest) {
        Ok(duplicates) => Some(duplicates),
        Err(_) => None,
    }
}

fn duplicates_of(alloc: Global, manifest: &Manifest) -> Result<Vec<DuplicateName>, AllocError>
    ensures { IfOk result (λ v. v.items ≡ specs.all_duplicates manifest.now) }
{
    let mut duplicates = Vec::new(alloc);
    push_duplicate_names(alloc, &mut duplicates, manifest.arrays())?;
    push_duplicate_names(alloc, &mut duplicates, manifest.apps())?;
    Ok(duplicates)
}

/// Something of a manifest, and its name as a duplicate.
trait Unique: Named {
    ghost reported_as: { List ℕ → DuplicateName };

    fn reported(name: Quote) -> DuplicateName
        ensures { result ≡ reported_as name };
}

impl Unique for ArrayDeclaration {
    ghost reported_as = { λ name. duplicate.Array name };

    fn reported(name: Quote) -> DuplicateName {
        DuplicateName::Array(name)
    }
}

impl Unique for AppEntry {
    ghost reported_as = { λ appid. duplicate.App appid };

    fn reported(appid: Quote) -> DuplicateName {
        DuplicateName::App(appid)
    }
}

// Adds each duplicate name, in the order of first occurrences.
fn push_duplicate_names<N: Unique>(
    alloc: Global,
    duplicates: &mut Vec<DuplicateName>,
    list: &[N],
) -> Result<(), AllocError>
    ensures { OnOk result (duplicates.new.items ≡ duplicates.old.items
        ++ map N.reported_as (duplicate_names (map N.name_of list.now))) }
{
    let mut place = 0;
    let mut left = list;
    while let [item, after @ ..] = left {
        let (before, _) = list.split_at(place);
        push_duplicate(alloc, duplicates, before, item, after)?;
        place += 1;
        left = after;
    }
    Ok(())
}

// Adds the name of an item, if it is in `after` but not in `before`.
fn push_duplicate<N: Unique>(
    alloc: Global,
    duplicates: &mut Vec<DuplicateName>,
    before: &[N],
    item: &N,
    after: &[N],
) -> Result<(), AllocError>
    ensures { OnOk result (duplicates.new.items ≡ duplicates.old.items
        ++ map N.reported_as
        (if not (list_any (bytes_eq (N.name_of item.now)) (map N.name_of before.now))
        && list_any (bytes_eq (N.name_of item.now)) (map N.name_of after.now)
        then N.name_of item.now ∷ [] else [])) }
{
    let name = item.name();
    if has_name(before, name) {
        return Ok(());
    }
    if !has_name(after, name) {
        return Ok(());
    }
    let name = Quote::of(alloc, name)?;
    duplicates.push(N::reported(name))?;
    Ok(())
}
