//! How many buckets get which release: a table for each app. Rows compare the tables; the counts in
//! them are those of `count_buckets`.

use crate::choices::Choices;
use crate::counts::count_buckets;
use crate::labels::{ChoiceLabel, release_count, widest_version};
use crate::simulated::Simulated;
use printing::{Printed, push_blanks};
use ruleset::App;
use std::alloc::AllocError;
use std::fmt::Write;

/// Appends the tables of all apps.
// open: whether an allocation fails; the tables: rows.
pub fn push_shares(text: &mut String, simulated: &Simulated) -> Result<(), AllocError> {
    for (app, choices) in simulated.apps().iter().zip(simulated.chosen().iter()) {
        push_table(text, app, choices)?;
    }
    Ok(())
}

fn push_table(text: &mut String, app: &App, choices: &Choices) -> Result<(), AllocError> {
    let width = widest_version(10, Some(app)).saturating_add(3);
    push_title(text, app.appid())?;
    text.push_str("\n")?;
    let counts = count_buckets(choices);
    for choice in 0..release_count(Some(app)) + 1 {
        if counts[choice] > 0 {
            push_row(text, app, width, choice, counts[choice])?;
        }
    }
    Ok(())
}

/// Appends the title of an app's table.
pub(crate) fn push_title(text: &mut String, appid: &str) -> Result<(), AllocError> {
    let appid = Printed(appid);
    write!(text, "app {appid}")
}

// The row of a choice that `count` buckets make out of 10000: the number, the percentage, and a bar
// with a mark for each 250, rounded, but at least one.
fn push_row(
    text: &mut String,
    app: &App,
    width: usize,
    choice: usize,
    count: u32,
) -> Result<(), AllocError> {
    let label = ChoiceLabel { app, choice };
    let whole = count / 100;
    let hundredths = count % 100;
    write!(text, "  {label}")?;
    push_blanks(text, width.saturating_sub(label.width()))?;
    write!(text, "  {count:>5}  {whole:>3}.{hundredths:02} %  ")?;
    for _mark in 0..(count.saturating_add(125) / 250).max(1) {
        text.push_str("#")?;
    }
    text.push_str("\n")
}
