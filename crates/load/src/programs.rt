//! Gathered apps are judged in order, and get their programs and their rules.

ghost use Rattle.std.specs.Prelude.{◌≡◌, ◌≤◌, [], length, vec_capacity, All, IfOk, IfErr};
ghost use Rattle.load.specs.Apps as specs;
ghost use Rattle.load.specs.Judged.{RefusesFirst, RefusesSources};
ghost use Rattle.load.specs.JudgedApps.{AreAppPrograms, IsAppProgram, IsJudgedApp};
ghost use Rattle.load.specs.JudgedApps.{app_rule, app_rules, sources_of};
ghost use Rattle.load.specs.Sources.{HasItsReleases};

use crate::judged::{AppProgram, JudgedApp};
use crate::judging::judge_file;
use crate::load_fault::{AppFault, LoadFault};
use crate::sources::AppSources;
use manifest::AppParts;
use ruleset::App;
use std::alloc::{AllocError, Global};
use std::sync::Arc;

/// The programs and rules of all apps, in order, or the fault of the first app without a program.
// open: whether an allocation fails (M8).
pub(crate) fn judge_each(alloc: Global, apps: &[AppSources]) -> Result<Vec<AppProgram>, LoadFault>
    ensures programs { IfOk result (λ v. AreAppPrograms apps.now v.items) }
    ensures fault { IfErr result (RefusesFirst apps.now) }
{
    let mut programs = Vec::new(alloc);
    let mut left = apps;
    while let [app, others @ ..] = left {
        let program = match judge_app(alloc, app) {
            Ok(program) => program,
            Err(fault) => return Err(in_app(programs.len() + 1, fault)),
        };
        let Ok(()) = programs.push(program) else {
            return Err(LoadFault::Memory);
        };
        left = others;
    }
    Ok(programs)
}

/// The program and the rule of one app, or its fault.
// open: whether an allocation fails (M8).
pub fn judge_app(alloc: Global, app: &AppSources) -> Result<AppProgram, AppFault>
    ensures program { IfOk result (IsAppProgram app.now) }
    ensures fault { IfErr result (RefusesSources app.now) }
{
    judge_file(alloc, app.entry.source(), &app.kept, &app.shape)
}

/// The fault of the app with this number.
pub fn in_app(app: usize, fault: AppFault) -> LoadFault
    ensures { result ≡ specs.in_app app fault }
{
    match fault {
        AppFault::File => LoadFault::File { app },
        AppFault::Program(fault) => LoadFault::Program { app, fault },
        AppFault::Rule(fault) => LoadFault::Rule { app, fault },
        AppFault::Memory => LoadFault::Memory,
    }
}

/// The apps, each with its program and its rule, in `room`; doesn't allocate.
pub(crate) fn join(
    mut room: Vec<JudgedApp>,
    apps: Vec<AppSources>,
    programs: Vec<AppProgram>,
) -> Vec<JudgedApp>
    requires empty { room.items ≡ [] }
    requires enough { length apps.items ≤ vec_capacity room }
    requires judged { AreAppPrograms apps.items programs.items }
    ensures sources { sources_of result.items ≡ apps.items }
    ensures judged { All IsJudgedApp result.items }
{
    let mut left = programs.into_iter();
    for sources in apps {
        let Some(judged) = left.next() else {
            unreachable!();
        };
        let AppProgram { program, rule } = judged;
        room.push_reserved(JudgedApp {
            sources,
            program,
            rule,
        });
    }
    room
}

/// The apps of a ruleset. Rules, and what is kept of files, are dropped.
// open: whether an allocation fails, its only error.
pub fn supply(alloc: Global, apps: Vec<JudgedApp>) -> Result<Vec<App>, AllocError>
    requires shaped { All HasItsReleases (sources_of apps.items) }
    requires judged { All IsJudgedApp apps.items }
    ensures { IfOk result (λ v. v.items ≡ app_rules apps.items) }
{
    let mut supplied = Vec::new(alloc);
    for app in apps {
        let Ok(one) = ruleset_app(alloc, app) else {
            return Err(AllocError);
        };
        let Ok(()) = supplied.push(one) else {
            return Err(AllocError);
        };
    }
    Ok(supplied)
}

fn ruleset_app(alloc: Global, app: JudgedApp) -> Result<App, AllocError>
    requires shaped { HasItsReleases app.sources }
    requires judged { IsJudgedApp app }
    ensures { IfOk result (λ supplied. supplied ≡ app_rule app) }
{
    let (sources, program) = app.into_parts();
    let AppParts {
        appid,
        source: _source,
        releases,
    } = sources.into_entry().into_parts();
    let Ok(program) = Arc::new(alloc, program) else {
        return Err(AllocError);
    };
    let Ok(releases) = Arc::new(alloc, releases) else {
        return Err(AllocError);
    };
    Ok(App::new(appid.into_string(), program, releases))
}
