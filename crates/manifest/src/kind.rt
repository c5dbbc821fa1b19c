//! The tables of a manifest, and the members that each may have.

ghost use Rattle.std.specs.Prelude.{◌≡◌, map, option_copied};
ghost use Rattle.std.specs.Str.{bytes_eq};
ghost use Rattle.std.specs.List.{list_any};
ghost use Rattle.toml.specs.View.{table_view};
ghost use Rattle.manifest.specs.Kind as specs;

use toml::Table;

/// A kind of table.
#[derive(Clone, Copy)]
pub enum Kind {
    Manifest,
    Array,
    App,
    Release,
    Package,
}

/// The first member, in the order of keys, that isn't allowed in a table of this kind.
pub fn unknown_member<'a>(kind: Kind, table: &'a Table) -> Option<&'a str>
    ensures { option_copied result ≡ specs.unknown_member kind (table_view table.now) }
{
    'members: for (key, _value) in table.iter() {
        if !is_member(kind, key.as_str()) {
            return Some(key.as_str());
        }
    }
    None
}

/// Whether a table of this kind may have a member with this key.
fn is_member(kind: Kind, key: &str) -> bool
    ensures { result ≡ list_any (bytes_eq key.now) (specs.members_of kind) }
{
    is_among(key, members_of(kind))
}

fn is_among(key: &str, keys: &[&str]) -> bool
    ensures { result ≡ list_any (bytes_eq key.now) (map (λ other. other.now) keys.now) }
{
    let mut left = keys;
    while let [other, rest @ ..] = left {
        if key == *other {
            return true;
        }
        left = rest;
    }
    false
}

static MANIFEST: [&str; 3] = ["server", "array", "app"];

static ARRAY: [&str; 4] = ["name", "width", "length", "quota"];

static APP: [&str; 4] = ["appid", "program", "rule", "release"];

static RELEASE: [&str; 3] = ["version", "codebase", "package"];

static PACKAGE: [&str; 4] = ["name", "hash_sha256", "size", "required"];

// The keys of a table's members. A match that compares the key in each arm takes 30 s to check.
fn members_of(kind: Kind) -> &'static [&'static str]
    ensures { map (λ key. key.now) result.now ≡ specs.members_of kind }
{
    match kind {
        Kind::Manifest => &MANIFEST,
        Kind::Array => &ARRAY,
        Kind::App => &APP,
        Kind::Release => &RELEASE,
        Kind::Package => &PACKAGE,
    }
}
