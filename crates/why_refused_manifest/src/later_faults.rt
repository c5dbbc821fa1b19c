//! The faults of the apps after a refused one, which are judged separately.

ghost use Rattle.std.specs.Prelude.{◌≡◌, ◌≢◌, ◌+◌, ◌^◌, ◌<◌, ◌++◌, length, IfOk, IfSome, OnOk};
ghost use Rattle.why_refused_manifest.specs.Further.{AreFaultsAfter, AreFaultsOf};
ghost use Rattle.why_refused_manifest.specs.Further.{JudgesApp, fault_of_app};

use load::{AppFault, AppSources, LoadFault, in_app, judge_app};
use std::alloc::{AllocError, Global};

/// The faults of the apps after the one with this number; None if an allocation fails.
pub(crate) fn faults_after(alloc: Global, apps: &[AppSources], app: usize) -> Option<Vec<LoadFault>>
    ensures { IfSome result (λ v. AreFaultsAfter apps.now app v.items) }
{
    if app > apps.len() {
        return None;
    }
    let (_, behind) = apps.split_at(app);
    let Ok(faults) = faults_of(alloc, app + 1, behind) else {
        return None;
    };
    Some(faults)
}

// The faults of these apps, the first of which has this number.
fn faults_of(alloc: Global, first: usize, apps: &[AppSources]) -> Result<Vec<LoadFault>, AllocError>
    requires { first + length apps.now < 2 ^ 64 }
    ensures { IfOk result (λ v. AreFaultsOf first apps.now v.items) }
{
    let mut faults = Vec::new(alloc);
    let mut number = first;
    let mut left = apps;
    while let [app, others @ ..] = left {
        let judged = fault_in(alloc, app)?;
        push_fault(&mut faults, number, judged)?;
        number += 1;
        left = others;
    }
    Ok(faults)
}

fn push_fault(
    faults: &mut Vec<LoadFault>,
    number: usize,
    judged: Option<AppFault>,
) -> Result<(), AllocError>
    ensures { OnOk result
        (faults.new.items ≡ faults.old.items ++ fault_of_app number judged) }
{
    let Some(fault) = judged else {
        return Ok(());
    };
    faults.push(in_app(number, fault))?;
    Ok(())
}

// The fault of an app by itself, or none.
fn fault_in(alloc: Global, app: &AppSources) -> Result<Option<AppFault>, AllocError>
    ensures { IfOk result (JudgesApp app.now) }
{
    match judge_app(alloc, app) {
        Ok(_program) => Ok(None),
        Err(fault) => {
            let fault = unless_memory(fault)?;
            Ok(Some(fault))
        }
    }
}

fn unless_memory(fault: AppFault) -> Result<AppFault, AllocError>
    ensures same { IfOk result (λ found. found ≡ fault) }
    ensures other { IfOk result (λ found. found ≢ AppFault.Memory) }
{
    match fault {
        AppFault::Memory => Err(AllocError),
        AppFault::File => Ok(AppFault::File),
        AppFault::Program(fault) => Ok(AppFault::Program(fault)),
        AppFault::Rule(fault) => Ok(AppFault::Rule(fault)),
    }
}
