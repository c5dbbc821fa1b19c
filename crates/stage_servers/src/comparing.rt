//! When an action looks at the files, by what the servers serve.

ghost use Rattle.std.specs.Prelude.{◌≡◌};
ghost use Rattle.std.specs.List.{list_all, list_any};
ghost use Rattle.stage_servers.specs.Unedited as specs;

use crate::action_kinds::is_put;
use crate::serves::{Serves, Surveyed};
use stage_records::StageAction;

fn is_unknown(server: &Surveyed) -> bool
    ensures { result ≡ specs.is_unknown server.now.serves }
{
    match &server.serves {
        Serves::Unknown => true,
        Serves::InPlace => false,
        Serves::Step { .. } => false,
        Serves::LastLoaded => false,
        Serves::Other { .. } => false,
    }
}

fn are_unknown(servers: &[Surveyed]) -> bool
    ensures { result ≡ list_all (λ server. specs.is_unknown server.serves) servers.now }
{
    let mut left = servers;
    while let [server, others @ ..] = left {
        if !is_unknown(server) {
            return false;
        }
        left = others;
    }
    true
}

fn serves_last(server: &Surveyed) -> bool
    ensures { result ≡ specs.serves_last server.now.serves }
{
    match &server.serves {
        Serves::Step { later, .. } => *later == 0,
        Serves::InPlace => false,
        Serves::LastLoaded => false,
        Serves::Other { .. } => false,
        Serves::Unknown => false,
    }
}

fn some_serves_last(servers: &[Surveyed]) -> bool
    ensures { result ≡ list_any (λ server. specs.serves_last server.serves) servers.now }
{
    let mut left = servers;
    while let [server, others @ ..] = left {
        if serves_last(server) {
            return true;
        }
        left = others;
    }
    false
}

/// Whether an action but a halt looks at the files.
pub(crate) fn depends_on_files(action: &StageAction<'_>, servers: &[Surveyed]) -> bool
    ensures { result ≡ specs.depends_on_files action.now servers.now }
{
    are_unknown(servers) || (!is_put(action) && some_serves_last(servers))
}
