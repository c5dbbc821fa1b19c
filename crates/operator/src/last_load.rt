//! What a server was loaded with last, if only by its start.

use access_log::Utc;
use ruleset::Ruleset;
use std::marker::Model;
use std::sync::Arc;

/// The last load of a server.
#[derive(Drop)]
pub struct LastLoad {
    /// The ruleset as it was loaded, whatever is halted.
    pub rules: Arc<Ruleset>,
    /// The digest of the manifest and of the files that it names.
    pub digest: [u8; 32],
    /// The path of the manifest.
    pub path: String,
    /// When it was loaded.
    pub time: Utc,
}

impl Model for LastLoad {
    ghost use Rattle.std.specs.Prelude.{string_bytes};
    ghost use Rattle.std.specs.Arc.{arc_value};
    ghost use Rattle.operator.specs.Control.{LastLoad};

    ghost Value = { LastLoad };

    ghost view = { λ l. record {
      rules = arc_value l.rules;
      digest = l.digest;
      path = string_bytes l.path;
      time = l.time;
    } };
}
