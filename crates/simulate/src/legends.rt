//! The legend of an app: a row for each choice that some bucket makes.

use crate::choices::Choices;
use crate::counts::count_buckets;
use crate::labels::{ChoiceLabel, release_count};
use markup::{Attribute, Document, Tag};
use ruleset::App;

/// Draws the legend of an app.
pub(crate) fn draw_legend(picture: &mut Document, app: &App, choices: &Choices) {
    let counts = count_buckets(choices);
    let mut top: u64 = 32;
    for choice in 0..release_count(Some(app)) + 1 {
        if counts[choice] > 0 {
            draw_row(picture, app, top, choice, counts[choice]);
            top = top.saturating_add(20);
        }
    }
}

// The row of a choice: its colour, its name, and how many buckets make it.
fn draw_row(picture: &mut Document, app: &App, top: u64, choice: usize, count: u32) {
    draw_patch(picture, top, choice);
    let y = top.saturating_add(11);
    picture.label(450, y, ChoiceLabel { app, choice });
    picture.end_label(740, y, count);
    let whole = count / 100;
    let hundredths = count % 100;
    picture.end_label(840, y, format_args!("{whole}.{hundredths:02} %"));
    picture.line();
}

fn draw_patch(picture: &mut Document, top: u64, choice: usize) {
    picture.open(Tag::Rect);
    picture.attribute(Attribute::Width, "12");
    picture.attribute(Attribute::Height, "12");
    picture.attribute(Attribute::X, "430");
    picture.attribute(Attribute::Y, top);
    picture.colour(Attribute::Fill, choice);
    picture.close();
}
