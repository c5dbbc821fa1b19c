//! Warnings on arrays that no program uses, and on those that the programs of several apps use.

ghost use Rattle.std.specs.Prelude.{◌≡◌, ◌^◌, ◌<◌, ◌+◌, ◌∷◌, ◌++◌, length, OnOk};
ghost use Rattle.std.specs.List.{list_any};
ghost use Rattle.why_refused_manifest.specs.ArrayWarnings as specs;

use bpf_insn::{Insn, WideValue};
use bpf_verify::Verified;
use cells::CellArray;
use ruleset::App;
use std::alloc::AllocError;
use warnings::{Warning, WarningKind, WarningPlace, warn_if};

fn is_number(index: i32, number: usize) -> bool
    ensures { result ≡ specs.is_number index number }
{
    match usize::try_from(index) {
        Ok(index) => index == number,
        Err(_) => false,
    }
}

fn names_array(number: usize, insn: Insn) -> bool
    ensures { result ≡ specs.names_array number insn }
{
    match insn {
        Insn::Wide {
            value: WideValue::Map(index),
            ..
        } => is_number(index, number),
        Insn::Wide {
            value: WideValue::Cell { array, .. },
            ..
        } => is_number(array, number),
        _ => false,
    }
}

fn place_names(number: usize, place: Option<Insn>) -> bool
    ensures { result ≡ specs.place_names number place }
{
    match place {
        Some(insn) => names_array(number, insn),
        None => false,
    }
}

fn program_names(number: usize, program: &Verified) -> bool
    ensures { result ≡ list_any (specs.place_names number) program.now.code }
{
    let mut slot = 0;
    while slot < program.len() {
        if place_names(number, program.at(slot)) {
            return true;
        }
        slot += 1;
    }
    false
}

fn app_names(number: usize, app: &App) -> bool
    ensures { result ≡ specs.app_names number app.now }
{
    let program: &Verified = app.program();
    program_names(number, program)
}

// The warning on an array that the app `first` uses, if one of these apps also uses it. They are
// numbered from `app`.
fn report_shared_array(
    warnings: &mut Vec<Warning>,
    number: usize,
    first: usize,
    app: usize,
    apps: &[App],
) -> Result<(), AllocError>
    requires number { number < 2 ^ 63 }
    requires apps { app + length apps.now < 2 ^ 64 }
    ensures { OnOk result (warnings.new.items ≡ warnings.old.items
        ++ specs.array_warning number (first ∷ specs.users_from app number apps.now)) }
{
    let mut second = app;
    let mut left = apps;
    while let [user, others @ ..] = left {
        if app_names(number, user) {
            let kind = WarningKind::SharedArray { first, second };
            return warn_if(warnings, true, WarningPlace::Array(number + 1), kind);
        }
        second += 1;
        left = others;
    }
    Ok(())
}

// The warning on an array, by the apps that use it.
fn report_array(warnings: &mut Vec<Warning>, number: usize, apps: &[App]) -> Result<(), AllocError>
    requires { number < 2 ^ 63 }
    ensures { OnOk result (warnings.new.items ≡ warnings.old.items
        ++ specs.array_warning number (specs.users_from 1 number apps.now)) }
{
    let mut app = 1;
    let mut left = apps;
    while let [user, others @ ..] = left {
        if app_names(number, user) {
            return report_shared_array(warnings, number, app, app + 1, others);
        }
        app += 1;
        left = others;
    }
    let kind = WarningKind::UnusedArray;
    warn_if(warnings, true, WarningPlace::Array(number + 1), kind)
}

/// Adds a warning for each array that no program of these apps uses, and for each that several use.
/// Arrays and apps are numbered from 1.
pub(crate) fn report_arrays(
    warnings: &mut Vec<Warning>,
    arrays: &[CellArray],
    apps: &[App],
) -> Result<(), AllocError>
    ensures { OnOk result (warnings.new.items
        ≡ warnings.old.items ++ specs.array_warnings 0 arrays.now apps.now) }
{
    let mut number = 0;
    let mut left = arrays;
    while let [_, others @ ..] = left {
        report_array(warnings, number, apps)?;
        number += 1;
        left = others;
    }
    Ok(())
}
