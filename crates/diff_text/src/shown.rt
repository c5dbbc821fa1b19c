//! Rows as they are shown.

ghost use Rattle.std.specs.Prelude.{◌≡◌};
ghost use Rattle.diff_text.specs.Shown as specs;

use crate::kind::RowKind;
use std::marker::Model;

/// A release: its number in its manifest, from 1, and its version.
#[derive(Drop)]
pub struct ShownRelease {
    pub number: usize,
    pub version: String,
}

impl Model for ShownRelease {
    ghost use Rattle.std.specs.Prelude.{string_bytes};
    ghost use Rattle.diff_text.specs.Shown as specs;

    ghost Value = { specs.ShownRelease };

    ghost view = { λ r. record { number = r.number; version = string_bytes r.version } };
}

/// A row: its kind, the release of each manifest, and its condition. This is all of `tests`, texts
/// of the rule language, and of `grants`, words about cells with a quota. Everybody is in a row
/// without these.
#[derive(Drop)]
pub struct ShownRow {
    pub kind: RowKind,
    pub current: Option<ShownRelease>,
    pub next: Option<ShownRelease>,
    pub tests: Vec<String>,
    pub grants: Vec<String>,
}

impl Model for ShownRow {
    ghost use Rattle.std.specs.Prelude.{map, string_bytes};
    ghost use Rattle.diff_text.specs.Shown as specs;

    ghost Value = { specs.ShownRow };

    ghost view = { λ r. record {
      kind = r.kind;
      current = r.current;
      next = r.next;
      tests = map string_bytes r.tests.items;
      grants = map string_bytes r.grants.items;
    } };
}

/// The rows of an app in their order, and the days that their conditions name, which rise.
#[derive(Drop)]
pub struct AppRows {
    pub rows: Vec<ShownRow>,
    pub days: Vec<u32>,
}

impl AppRows {
    /// Whether some row is lost.
    pub fn is_lost(&self) -> bool
        ensures { result ≡ specs.some_shown_lost self.now.rows.items }
    {
        let mut left = self.rows.as_slice();
        while let [row, others @ ..] = left {
            if row.kind.is_lost() {
                return true;
            }
            left = others;
        }
        false
    }
}
