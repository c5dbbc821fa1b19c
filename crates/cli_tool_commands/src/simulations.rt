//! `simulate`: the output of a simulation.

ghost use Rattle.std.specs.Prelude.{◌≡◌, IfOk, IfErr};
ghost use Rattle.cli_tool_commands.specs.Clients.{client_of};
ghost use Rattle.cli_tool_commands.specs.Outputs.{IsOutput, IsRefused};

use crate::output::ToolOutput;
use crate::tool_fault::Fault;
use bounded_files::{Disk, ResourceFault};
use cli_base::AppArgs;
use cli_manifests::{ManifestToolFault, SimulationOptions, simulate_files};
use cli_tool_words::{SimulateArgs, ToolCommand};
use simulate::Client;
use std::alloc::{AllocError, Global};
use std::fs::File;
use std::rt::Files;
use std::time::Clock;

/// What the clients in all buckets get.
pub(crate) fn simulated<R, D>(
    rt: &R,
    disk: &D,
    args: &SimulateArgs<'_>,
) -> Result<ToolOutput, Fault>
where
    R: Files<File = File> + AllocGlobal + Clock + Eprint,
    D: Disk,
    ensures output { IfOk result (IsOutput (D.known disk.now) (ToolCommand.Simulate args.now)) }
    ensures fault { IfErr result (IsRefused (D.known disk.now) (ToolCommand.Simulate args.now)) }
{
    let Ok(client) = client_of(rt.alloc(), &args.app) else {
        let fault = ManifestToolFault::Resource(ResourceFault::Memory);
        return Err(Fault::Manifest(fault));
    };
    let options = SimulationOptions {
        manifest: args.manifest,
        against: args.against,
        appid: args.appid,
        picture: args.picture,
        json: args.json,
    };
    match simulate_files(rt, disk, &options, client) {
        Ok(output) => {
            let passes = !(args.fail_on_lost && output.loses);
            Ok(ToolOutput::Simulated { output, passes })
        }
        Err(fault) => Err(Fault::Manifest(fault)),
    }
}

// The client that the words describe. The request is made first, since it has fewer parts to drop
// if the app can't be made.
fn client_of(alloc: Global, app: &AppArgs<'_>) -> Result<Client, AllocError>
    ensures { IfOk result (λ client. client ≡ client_of app.now) }
{
    let request = app.request(alloc)?;
    match app.app(alloc) {
        Ok(facts) => Ok(Client {
            app: facts,
            request,
            moment: app.moment(),
        }),
        Err(_) => {
            drop(request);
            Err(AllocError)
        }
    }
}
