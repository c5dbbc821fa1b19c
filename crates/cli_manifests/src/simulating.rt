//! `simulate`: what the clients in all buckets get by a manifest, and what changes for them
//! compared with another one; for all apps or one, as lines or as JSON.

ghost use Rattle.std.specs.Prelude.{◌≡◌, [], IfOk, IfErr, IsSome, OnErr, option_copied};
ghost use Rattle.load.specs.Loaded.{RefusesPath};
ghost use Rattle.cli_manifests.specs.Simulations as specs;
ghost use Rattle.simulate.specs.Clients.{IsSameButApp};

use crate::client_line::client_line;
use crate::manifest_tool_fault::ManifestToolFault;
use crate::progress_lines::ProgressLines;
use crate::simulation_options::SimulationOptions;
use crate::simulation_output::{SimulationOutput, format_against, format_alone};
use bounded_files::{Disk, ResourceFault, may_write_over, write_file};
use cells::Directory;
use load::{PathFault, load_path};
use ruleset::Ruleset;
use simulate::{Client, Simulated};
use std::alloc::{AllocError, Global};
use std::fs::File;
use std::rt::Files;
use std::time::Clock;

/// What the clients in all buckets get by a manifest, and, if there is another one, what changes
/// for them compared with it. Each is loaded over no arrays, like a server's first manifest. With
/// an appid all apps are still evaluated, but only that app is reported. The picture is written
/// last. If it takes over a second, its progress is printed on standard error.
///
/// Returns the first fault in this order:
///
/// - B3 of the manifest, or M1 to M7 of its load;
/// - B8 if it doesn't have the app;
/// - B3 or M1 to M7 of the other manifest, which may lack the app;
/// - B3 if the picture can't be written, or would overwrite a file that isn't a picture.
///
/// Returns B4, or M8 in a load, if an allocation fails.
// open: whether an allocation fails; the progress that is printed; that the file gets the picture.
pub fn simulate_files<R, D>(
    rt: &R,
    disk: &D,
    options: &SimulationOptions<'_>,
    client: Client,
) -> Result<SimulationOutput, ManifestToolFault>
where
    R: Files<File = File> + AllocGlobal + Clock + Eprint,
    D: Disk,
    ensures output { IfOk result (specs.HasSimulated (D.known disk.now) client options.now) }
    ensures fault { IfErr result
        (specs.IsSimulationRefusal (D.known disk.now) client options.now) }
{
    let output = output_for(rt, disk, options, client)?;
    match write_picture(rt, options.picture, &output) {
        Ok(()) => Ok(output),
        Err(ResourceFault::File) => Err(ManifestToolFault::Resource(ResourceFault::File)),
        Err(ResourceFault::Memory) => Err(ManifestToolFault::Resource(ResourceFault::Memory)),
    }
}

// Writes the picture of a simulation into the named file. An existing file must be a picture or
// empty, so that no manifest and no rule is overwritten, by whatever path.
fn write_picture<R>(
    rt: &R,
    file: Option<&str>,
    output: &SimulationOutput,
) -> Result<(), ResourceFault>
where
    R: Files<File = File> + AllocGlobal,
    ensures { OnErr result (IsSome (option_copied file.entry)) }
{
    match (file, &output.picture) {
        (Some(path), Some(picture)) => {
            if !may_write_over(rt, path, b"<svg") {
                return Err(ResourceFault::File);
            }
            write_file(rt, path, picture.as_bytes())
        }
        _ => Ok(()),
    }
}

// The report on the files, none written yet. From here on the client is lent, and it is dropped
// here, by one call. In a function that owned it, each `?` would drop its twenty parts one by one,
// and each of these calls would be proved. The same holds for the simulations below.
fn output_for<R, D>(
    rt: &R,
    disk: &D,
    options: &SimulationOptions<'_>,
    mut client: Client,
) -> Result<SimulationOutput, ManifestToolFault>
where
    R: AllocGlobal + Clock + Eprint,
    D: Disk,
    ensures output { IfOk result (specs.HasSimulated (D.known disk.now) client options.now) }
    ensures fault { IfErr result (specs.IsLoadRefusal (D.known disk.now) options.now) }
{
    let output = output_of_files(rt, disk, options, &mut client);
    drop(client);
    output
}

// The same, with the client lent.
fn output_of_files<R, D>(
    rt: &R,
    disk: &D,
    options: &SimulationOptions<'_>,
    client: &mut Client,
) -> Result<SimulationOutput, ManifestToolFault>
where
    R: AllocGlobal + Clock + Eprint,
    D: Disk,
    ensures output { IfOk result (specs.HasSimulated (D.known disk.now) client.old options.now) }
    ensures fault { IfErr result (specs.IsLoadRefusal (D.known disk.now) options.now) }
{
    let rules = match load_alone(rt.alloc(), disk, options.manifest) {
        Ok(rules) => rules,
        Err(fault) => return Err(ManifestToolFault::Load(fault)),
    };
    if lacks_app(&rules, options.appid) {
        return Err(ManifestToolFault::NoApp);
    }
    match options.against {
        None => match output_alone(rt, rules, options, client) {
            Ok(output) => Ok(output),
            Err(_) => Err(ManifestToolFault::Resource(ResourceFault::Memory)),
        },
        Some(path) => match load_alone(rt.alloc(), disk, path) {
            Ok(serving) => match output_against(rt, rules, serving, options, client) {
                Ok(output) => Ok(output),
                Err(_) => Err(ManifestToolFault::Resource(ResourceFault::Memory)),
            },
            Err(fault) => Err(ManifestToolFault::Against(fault)),
        },
    }
}

// The ruleset of a manifest, loaded over no arrays.
fn load_alone<D: Disk>(alloc: Global, disk: &D, path: &str) -> Result<Ruleset, PathFault>
    ensures rules { IfOk result (specs.IsLoadedAlone (D.known disk.now) path.now) }
    ensures fault { IfErr result (RefusesPath (D.known disk.now) path.now []) }
{
    let directory = Directory::new(alloc);
    match load_path(alloc, disk, path, &directory) {
        Ok((rules, _grown)) => Ok(rules),
        Err(fault) => Err(fault),
    }
}

// Whether a ruleset lacks the one app that is to be reported.
fn lacks_app(rules: &Ruleset, appid: Option<&str>) -> bool
    ensures { result ≡ specs.lacks_app (option_copied appid.entry) rules.now }
{
    match appid {
        None => false,
        Some(appid) => match rules.find(appid) {
            Some(_) => false,
            None => true,
        },
    }
}

// The report on a single ruleset.
fn output_alone<R>(
    rt: &R,
    rules: Ruleset,
    options: &SimulationOptions<'_>,
    client: &mut Client,
) -> Result<SimulationOutput, AllocError>
where
    R: AllocGlobal + Clock + Eprint,
    ensures { IfOk result (specs.ShowsAlone client.old options.now rules) }
{
    let next = simulation_of(
        rt,
        rules,
        options.appid,
        client,
        &mut ProgressLines::new(rt),
    )?;
    let output = format_alone(rt.alloc(), &next, options);
    drop(next);
    Ok(output?)
}

// The simulation of a ruleset: of all its apps, or only of one.
fn simulation_of<R>(
    rt: &R,
    rules: Ruleset,
    appid: Option<&str>,
    client: &mut Client,
    progress: &mut ProgressLines<'_, R>,
) -> Result<Simulated, AllocError>
where
    R: AllocGlobal + Clock + Eprint,
    ensures simulated { IfOk result
        (specs.IsSimulationBy client.old rules (option_copied appid.entry)) }
    ensures client { IsSameButApp client.old client.new }
{
    match appid {
        None => {
            let all = Simulated::of(rt.alloc(), rules, client, progress)?;
            Ok(all)
        }
        Some(appid) => {
            let one = Simulated::of_app(rt.alloc(), rules, appid, client, progress)?;
            Ok(one)
        }
    }
}

// The report on a ruleset compared with the one that is served.
fn output_against<R>(
    rt: &R,
    rules: Ruleset,
    serving: Ruleset,
    options: &SimulationOptions<'_>,
    client: &mut Client,
) -> Result<SimulationOutput, AllocError>
where
    R: AllocGlobal + Clock + Eprint,
    ensures { IfOk result (specs.ShowsAgainst client.old options.now rules serving) }
{
    let mut progress = ProgressLines::new(rt);
    let clients = client_line(rt.alloc(), client)?;
    let next = simulation_of(rt, rules, options.appid, client, &mut progress)?;
    let now = simulation_of(rt, serving, options.appid, client, &mut progress)?;
    let output = format_against(rt.alloc(), &clients, &now, &next, options);
    drop(now);
    drop(next);
    Ok(output?)
}
