//! How many buckets move from which release to which: a table for each app. Rows compare the
//! tables; the counts in them are those of `count_moves`, and `loses` marks a row.

ghost use Rattle.std.specs.Prelude.{◌≡◌, None, length};
ghost use Rattle.simulate.specs.Counts.{choices_or_none};

use crate::choices::Choices;
use crate::counts::count_moves;
use crate::labels::{release_count, version_at, widest_version};
use crate::lost::loses;
use crate::shares::push_title;
use crate::simulated::Simulated;
use printing::{push_column, width_of};
use ruleset::App;
use std::alloc::{AllocError, Global};
use std::fmt::Write;

/// The widths of the columns of a table of moves.
#[derive(Clone, Copy)]
struct MoveWidths {
    app: usize,
    now: usize,
    next: usize,
}

/// Appends the tables of all apps that one of two rulesets has: those of the next one, and then
/// those that only the current one has.
// open: whether an allocation fails; the tables: rows.
pub fn push_moves(
    alloc: Global,
    text: &mut String,
    now: &Simulated,
    next: &Simulated,
) -> Result<(), AllocError> {
    let none = Choices::none(alloc)?;
    for app in next.apps() {
        push_table(alloc, text, now, next, &none, app.appid())?;
    }
    for app in now.apps() {
        if next.lacks(app.appid()) {
            push_table(alloc, text, now, next, &none, app.appid())?;
        }
    }
    Ok(())
}

// The table of an app: a row for each move that some bucket makes.
fn push_table(
    alloc: Global,
    text: &mut String,
    now: &Simulated,
    next: &Simulated,
    none: &Choices,
    appid: &str,
) -> Result<(), AllocError>
    requires { none.now ≡ choices_or_none None }
{
    let (app, choices) = now.offer(none, appid);
    let (next_app, next_choices) = next.offer(none, appid);
    let mut title = String::new(alloc);
    push_title(&mut title, appid)?;
    let widths = MoveWidths {
        app: width_of(title.as_str()).max(15),
        now: widest_version(9, app),
        next: widest_version(9, next_app),
    };
    let pushed = push_columns(text, widths, title.as_str(), "now", "next");
    drop(title);
    pushed?;
    text.push_str("buckets\n")?;
    let table = count_moves(alloc, choices, next_choices)?;
    push_rows(text, widths, (app, next_app), table.as_slice())
}

fn push_rows(
    text: &mut String,
    widths: MoveWidths,
    apps: (Option<&App>, Option<&App>),
    table: &[u32],
) -> Result<(), AllocError>
    requires { length table.now ≡ 4225 }
{
    for from in 0..release_count(apps.0) + 1 {
        for to in 0..release_count(apps.1) + 1 {
            let count = table[65 * from + to];
            if count > 0 {
                push_row(text, widths, apps, (from, to), count)?;
            }
        }
    }
    Ok(())
}

fn push_row(
    text: &mut String,
    widths: MoveWidths,
    apps: (Option<&App>, Option<&App>),
    choices: (usize, usize),
    count: u32,
) -> Result<(), AllocError> {
    let (now, next) = apps;
    let (from, to) = choices;
    push_columns(
        text,
        widths,
        "",
        choice_name(now, from),
        choice_name(next, to),
    )?;
    let mark = if loses(now, next, from, to) {
        "  lost"
    } else {
        ""
    };
    writeln!(text, "{count:>7}{mark}")
}

fn choice_name<'a>(app: Option<&'a App>, choice: usize) -> &'a str {
    if choice == 0 {
        "none"
    } else {
        version_at(app, choice)
    }
}

fn push_columns(
    text: &mut String,
    widths: MoveWidths,
    app: &str,
    now: &str,
    next: &str,
) -> Result<(), AllocError> {
    push_column(text, widths.app, app)?;
    push_column(text, widths.now, now)?;
    push_column(text, widths.next, next)
}
