//! Lists of apps, each of which is there once.

ghost use Rattle.std.specs.Prelude.{◌≡◌, ◌++◌, ◌∷◌, [], OnOk, map, string_bytes};
ghost use Rattle.stage_rules.specs.InForce as specs;
ghost use Rattle.stage_rules.specs.InForce.{HasOneMore};

use std::alloc::{AllocError, Global};

/// Whether an app is among these.
pub fn is_named(appids: &[String], appid: &str) -> bool
    ensures { result ≡ specs.is_named (map string_bytes appids.now) appid.now }
{
    let mut left = appids;
    while let [one, others @ ..] = left {
        if one.as_str() == appid {
            return true;
        }
        left = others;
    }
    false
}

/// Adds an app. Returns an error if an allocation fails.
// open: whether an allocation fails.
pub fn push_app(alloc: Global, appids: &mut Vec<String>, appid: &str) -> Result<(), AllocError>
    ensures { OnOk result (map string_bytes appids.new.items
        ≡ map string_bytes appids.old.items ++ appid.now ∷ []) }
{
    let copy = String::from_str(alloc, appid)?;
    appids.push(copy)?;
    Ok(())
}

/// Adds an app at the end, unless it is among these. Returns an error if an allocation fails.
// open: whether an allocation fails, and that an app which is among them isn't added.
#[tactic(auto, using(crate::proofs::Named::pushed, crate::proofs::Named::named))]
pub fn push_once(alloc: Global, appids: &mut Vec<String>, appid: &str) -> Result<(), AllocError>
    ensures { OnOk result (HasOneMore appid.now (map string_bytes appids.old.items)
        (map string_bytes appids.new.items)) }
{
    if is_named(appids, appid) {
        return Ok(());
    }
    match push_app(alloc, appids, appid) {
        Ok(()) => Ok(()),
        Err(_) => Err(AllocError),
    }
}
