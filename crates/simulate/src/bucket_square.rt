//! The square of an app: 100 by 100 buckets.

use crate::choices::Choices;
use crate::counts::count_buckets;
use crate::labels::release_count;
use markup::{Attribute, Document, Tag};
use ruleset::App;
use std::fmt;
use std::fmt::{Display, Formatter, Write};

/// Draws the square of an app, with a path for each release that some bucket gets. A bucket is 4 by
/// 4 pixels.
pub(crate) fn draw_square(picture: &mut Document, app: &App, choices: &Choices) {
    draw_background(picture);
    picture.open(Tag::Group);
    picture.attribute(Attribute::Transform, "translate(0,32) scale(4)");
    picture.attribute(Attribute::ShapeRendering, "crispEdges");
    picture.line();
    let counts = count_buckets(choices);
    for choice in 1..release_count(Some(app)) + 1 {
        if counts[choice] > 0 {
            draw_buckets(picture, choices.as_slice(), choice);
        }
    }
    picture.close();
    picture.line();
}

fn draw_background(picture: &mut Document) {
    picture.open(Tag::Rect);
    picture.attribute(Attribute::Y, "30");
    picture.attribute(Attribute::Width, "400");
    picture.attribute(Attribute::Height, "400");
    picture.colour(Attribute::Fill, 0);
    picture.close();
    picture.line();
}

// The buckets that get a release.
fn draw_buckets(picture: &mut Document, choices: &[u8], choice: usize) {
    picture.open(Tag::Path);
    picture.colour(Attribute::Stroke, choice);
    picture.attribute(Attribute::D, BucketPath { choices, choice });
    picture.close();
    picture.line();
}

// The path of the buckets that get a release: for each a line of one unit from its left to its
// right.
#[derive(Drop)]
struct BucketPath<'a> {
    choices: &'a [u8],
    choice: usize,
}

impl<'a> Display for BucketPath<'a> {
    fn fmt<W: Write>(&self, f: &mut Formatter<W>) -> fmt::Result {
        for (bucket, own) in self.choices.iter().enumerate() {
            if *own as usize == self.choice {
                let column = bucket % 100;
                let row = bucket / 100;
                write!(f, "M{column} {row}h1")?;
            }
        }
        Ok(())
    }
}
