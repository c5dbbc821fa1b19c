//! The appids of the halted apps, the one that was halted last first.

ghost use Rattle.std.specs.Prelude.{◌≡◌, [], ◌∷◌, ◌++◌, IfOk, OnOk, map, string_bytes};
ghost use Rattle.halts.specs.Halts.{halting, is_named, without};

use std::alloc::{AllocError, Global};

/// Whether an appid is among the halted ones.
pub fn is_halted(halted: &[String], appid: &str) -> bool
    ensures { result ≡ is_named (map string_bytes halted.now) appid.now }
{
    let mut left = halted;
    while let [one, others @ ..] = left {
        if one.as_str() == appid {
            return true;
        }
        left = others;
    }
    false
}

/// A copy of the halted appids, with one more.
// open: whether an allocation fails, its only error.
pub fn with_halted(alloc: Global, halted: &[String], appid: &str) -> Result<Vec<String>, AllocError>
    ensures { IfOk result (λ list.
        map string_bytes list.items ≡ halting appid.now (map string_bytes halted.now)) }
{
    let mut list = Vec::new(alloc);
    push_copy(alloc, &mut list, appid)?;
    push_others(alloc, &mut list, halted, appid)?;
    Ok(list)
}

/// A copy of the halted appids, without one of them.
// open: whether an allocation fails, its only error.
pub fn without_halted(
    alloc: Global,
    halted: &[String],
    appid: &str,
) -> Result<Vec<String>, AllocError>
    ensures { IfOk result (λ list.
        map string_bytes list.items ≡ without appid.now (map string_bytes halted.now)) }
{
    let mut list = Vec::new(alloc);
    push_others(alloc, &mut list, halted, appid)?;
    Ok(list)
}

// Appends copies of all appids but this one.
fn push_others(
    alloc: Global,
    list: &mut Vec<String>,
    halted: &[String],
    appid: &str,
) -> Result<(), AllocError>
    ensures { OnOk result (map string_bytes list.new.items
        ≡ map string_bytes list.old.items ++ without appid.now (map string_bytes halted.now)) }
{
    let mut left = halted;
    while let [one, rest @ ..] = left {
        if one.as_str() != appid {
            push_copy(alloc, list, one.as_str())?;
        }
        left = rest;
    }
    Ok(())
}

// Appends a copy of an appid.
fn push_copy(alloc: Global, list: &mut Vec<String>, appid: &str) -> Result<(), AllocError>
    ensures { OnOk result (map string_bytes list.new.items
        ≡ map string_bytes list.old.items ++ appid.now ∷ []) }
{
    let copy = String::from_str(alloc, appid)?;
    list.push(copy)?;
    Ok(())
}
