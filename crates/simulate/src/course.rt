//! The apps of a ruleset, in order.

ghost use Rattle.std.specs.Prelude.{◌≡◌, length, IfOk};
ghost use Rattle.simulate.specs.Clients.{IsSameButApp};
ghost use Rattle.simulate.specs.Course.{ChoosesForApp, IsSimulated};

use crate::choices::Choices;
use crate::client::Client;
use crate::runs::run_all;
use cells::{PlainCells, PlainPass};
use ruleset::{App, Ruleset};
use std::alloc::{AllocError, Global};

/// An observer of a simulation's progress.
pub trait Onlooker {
    /// Reports that `done` of `all` apps are evaluated.
    fn evaluated(&mut self, done: usize, all: usize);
}

/// The choices of the clients of all buckets for each app, in the ruleset's order. All counters are
/// 0 at first, and each run leaves them to the next. The observer is called after each app.
// open: whether an allocation fails; what is reported to an observer.
pub fn simulate<O: Onlooker>(
    alloc: Global,
    rules: &Ruleset,
    client: &mut Client,
    onlooker: &mut O,
) -> Result<Vec<Choices>, AllocError>
    ensures choices { IfOk result (λ chosen. IsSimulated client.old rules.now.apps chosen.items) }
    ensures all { IfOk result (λ chosen. length chosen.items ≡ length rules.now.apps) }
    ensures client { IsSameButApp client.old client.new }
{
    let Ok((cells, mut pass)) = PlainCells::new(alloc) else {
        return Err(AllocError);
    };
    let apps = rules.apps();
    let mut chosen = Vec::with_capacity(alloc, apps.len())?;
    for app in apps {
        let choices = choose_for_app(alloc, app, client, &cells, &mut pass)?;
        chosen.push(choices)?;
        onlooker.evaluated(chosen.len(), apps.len());
    }
    Ok(chosen)
}

// The clients' choices for an app.
fn choose_for_app(
    alloc: Global,
    app: &App,
    client: &mut Client,
    cells: &PlainCells,
    pass: &mut PlainPass,
) -> Result<Choices, AllocError>
    ensures choices { IfOk result (λ choices.
        ChoosesForApp client.old app.now pass.old choices pass.new) }
    ensures client { IsSameButApp client.old client.new }
{
    client.set_appid(alloc, app.appid())?;
    run_all(alloc, app.program(), client, cells, pass)
}
