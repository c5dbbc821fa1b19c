//! A run of a file's program for one app, as the arguments of `run` and of `trace` describe it.

ghost use Rattle.std.specs.Prelude.{IfOk, OnErr};
ghost use Rattle.clap.specs.Words.{found_of, rows_of};
ghost use Rattle.cli_base.specs.Runs as specs;
ghost use Rattle.cli_base.specs.Values.{OnWrong};

use crate::app_args::AppArgs;
use crate::app_options::{read_app, read_bucket};
use crate::argument_fault::ArgsError;
use crate::declared_shape::DeclaredShape;
use crate::values::{shape_of, text_of};
use attrs::Bucket;
use clap::ArgMatches;
use std::alloc::Global;

/// A run of the program at `path` for one app. `None` means the bucket that its cohort names.
#[derive(Drop)]
pub struct RunArgs<'a> {
    pub path: &'a str,
    pub shape: DeclaredShape,
    pub app: AppArgs<'a>,
    pub bucket: Option<Bucket>,
}

/// The run that the arguments describe.
pub fn read_run<'a>(alloc: Global, found: &ArgMatches<'a>) -> Result<RunArgs<'a>, ArgsError>
    ensures given { IfOk result (specs.HasRun (rows_of (found_of found.now))) }
    ensures lacking { OnWrong result (specs.LacksRun (rows_of (found_of found.now))) }
{
    let path = text_of(found, "IN")?;
    let shape = shape_of(alloc, found)?;
    match read_placed(found) {
        Ok((app, bucket)) => Ok(RunArgs {
            path,
            shape,
            app,
            bucket,
        }),
        Err(error) => Err(error),
    }
}

// The app, and its bucket.
fn read_placed<'a>(found: &ArgMatches<'a>) -> Result<(AppArgs<'a>, Option<Bucket>), ArgsError>
    ensures given { IfOk result (λ placed.
        specs.HasPlaced (rows_of (found_of found.now)) placed.0 placed.1) }
    ensures lacking { OnErr result (specs.LacksPlaced (rows_of (found_of found.now))) }
{
    let app = read_app(found)?;
    let bucket = read_bucket(found, app.cohort)?;
    Ok((app, bucket))
}
