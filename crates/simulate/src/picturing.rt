//! The whole picture.

ghost use Rattle.std.specs.Prelude.{IfOk, string_bytes};
ghost use Rattle.markup.specs.WellFormed.{IsDocument};

use crate::bucket_square::draw_square;
use crate::choices::Choices;
use crate::labels::release_count;
use crate::legends::draw_legend;
use crate::simulated::Simulated;
use markup::{Attribute, Document, Tag};
use ruleset::App;
use std::alloc::{AllocError, Global};

/// The height of what is above the first app, in pixels.
const HEAD: u64 = 20;

/// The picture of a simulation, as the text of an SVG file.
// open: when it fails; which numbers the picture shows (rows compare it).
pub fn draw(alloc: Global, simulated: &Simulated) -> Result<String, AllocError>
    ensures { IfOk result (λ text. IsDocument (string_bytes text)) }
{
    let mut picture = Document::picture(alloc, height_of(simulated.apps()))?;
    let mut top = HEAD;
    for (app, choices) in simulated.apps().iter().zip(simulated.chosen().iter()) {
        draw_panel(&mut picture, top, app, choices);
        top = top.saturating_add(panel_height(app));
    }
    picture.finish()
}

fn height_of(apps: &[App]) -> u64 {
    let mut height = HEAD;
    for app in apps {
        height = height.saturating_add(panel_height(app));
    }
    height
}

// The height of a square, or of the legend of all releases, and of what is above and below it.
fn panel_height(app: &App) -> u64 {
    let rows = release_count(Some(app)) as u64;
    (20 * rows + 20).max(400) + 60
}

fn draw_panel(picture: &mut Document, top: u64, app: &App, choices: &Choices) {
    let appid = app.appid();
    picture.open(Tag::Group);
    picture.attribute(Attribute::Transform, format_args!("translate(20,{top})"));
    picture.line();
    picture.open(Tag::Text);
    picture.attribute(Attribute::Y, "20");
    picture.text(format_args!("app {appid}"));
    picture.close();
    picture.line();
    draw_square(picture, app, choices);
    draw_legend(picture, app, choices);
    picture.close();
    picture.line();
}
