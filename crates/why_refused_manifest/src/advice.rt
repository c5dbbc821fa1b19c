//! A hint printed with a schema error: for an unknown member, the known members; for a list of
//! tables, how its tables begin. No clause says which; rows compare them.

use manifest::{AppError, ArrayError, InList, PackageError, ReleaseError, SchemaError};

fn package_advice(schema_error: &PackageError) -> &'static str {
    match schema_error {
        PackageError::Unknown(_) => {
            "the members of a package: name, hash_sha256, size, required\n"
        }
        _ => "",
    }
}

fn release_advice(schema_error: &ReleaseError) -> &'static str {
    match schema_error {
        ReleaseError::Unknown(_) => "the members of a release: version, codebase, package\n",
        ReleaseError::Packages(InList::Count) => {
            "each package begins with [[app.release.package]]\n"
        }
        ReleaseError::Packages(InList::At(_, schema_error)) => package_advice(schema_error),
        _ => "",
    }
}

fn app_advice(schema_error: &AppError) -> &'static str {
    match schema_error {
        AppError::Unknown(_) => "the members of an app: appid, program or rule, release\n",
        AppError::Releases(InList::Count) => "each release begins with [[app.release]]\n",
        AppError::Releases(InList::At(_, schema_error)) => release_advice(schema_error),
        _ => "",
    }
}

fn array_advice(schema_error: &ArrayError) -> &'static str {
    match schema_error {
        ArrayError::Unknown(_) => "the members of an array: name, width, length, quota\n",
        _ => "",
    }
}

/// A line, or the empty text.
pub(crate) fn advice(schema_error: &SchemaError) -> &'static str {
    match schema_error {
        SchemaError::Unknown(_) => "the members of a manifest: server, array, app\n",
        SchemaError::Arrays(InList::Count) => "each array begins with [[array]]\n",
        SchemaError::Arrays(InList::At(_, schema_error)) => array_advice(schema_error),
        SchemaError::Apps(InList::Count) => "each app begins with [[app]]\n",
        SchemaError::Apps(InList::At(_, schema_error)) => app_advice(schema_error),
        _ => "",
    }
}
