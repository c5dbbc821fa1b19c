//! The apps whose recorded halts are in force: a step halted them and isn't undone, and a manifest
//! doesn't surely offer them.

ghost use Rattle.std.specs.Prelude.{IfOk, OnOk, map, string_bytes};
ghost use Rattle.stage_servers.specs.Halted.{AreInForce, HasHaltOf};

use load::AppSources;
use stage_records::StagingStep;
use stage_rules::{halted_app, push_once, surely_offers};
use std::alloc::{AllocError, Global};

// Adds the app of a step's halt, if that is in force.
#[tactic(auto, using(crate::proofs::Halted::one_step))]
fn push_halt(
    alloc: Global,
    appids: &mut Vec<String>,
    step: &StagingStep,
    apps: &[AppSources],
) -> Result<(), AllocError>
    ensures { OnOk result (HasHaltOf step.now apps.now (map string_bytes appids.old.items)
        (map string_bytes appids.new.items)) }
{
    match halted_app(step) {
        None => Ok(()),
        Some(appid) => {
            if surely_offers(apps, appid) {
                return Ok(());
            }
            match push_once(alloc, appids, appid) {
                Ok(()) => Ok(()),
                Err(_) => Err(AllocError),
            }
        }
    }
}

/// The apps whose halts by these steps are in force under a manifest of these apps. The clause says
/// which they are; each is there once, in the order of their first halts.
#[tactic(auto, using(crate::proofs::Halted::each_step))]
pub(crate) fn halts_in_force(
    alloc: Global,
    steps: &[StagingStep],
    apps: &[AppSources],
) -> Result<Vec<String>, AllocError>
    ensures { IfOk result (λ named. AreInForce steps.now apps.now
        (map string_bytes named.items)) }
{
    let mut appids = Vec::new(alloc);
    let mut left = steps;
    while let [step, others @ ..] = left {
        push_halt(alloc, &mut appids, step, apps)?;
        left = others;
    }
    Ok(appids)
}
