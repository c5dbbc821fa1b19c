//! Texts at places, and colours by number.

use crate::document::Document;
use crate::names::{Attribute, Tag};
use std::fmt::Display;

impl Document {
    /// Adds a text that begins at a place, in pixels.
    // open: what is written.
    pub fn label<T: Display + Drop>(&mut self, x: u64, y: u64, text: T) {
        self.open(Tag::Text);
        self.label_at(u128::from(x), y, text);
    }

    /// Adds a text that ends at a place.
    // open: what is written.
    pub fn end_label<T: Display + Drop>(&mut self, x: u64, y: u64, text: T) {
        self.open(Tag::Text);
        self.attribute(Attribute::TextAnchor, "end");
        self.label_at(u128::from(x), y, text);
    }

    /// Adds a text of 12 pixels at a place; `anchor` is `middle` or `end`.
    // open: what is written.
    pub fn small_label<T: Display + Drop>(&mut self, anchor: &str, x: u128, y: u64, text: T) {
        self.open(Tag::Text);
        self.attribute(Attribute::TextAnchor, anchor);
        self.attribute(Attribute::FontSize, "12");
        self.label_at(x, y, text);
    }

    fn label_at<T: Display + Drop>(&mut self, x: u128, y: u64, text: T) {
        self.attribute(Attribute::X, x);
        self.attribute(Attribute::Y, y);
        self.text(text);
        self.close();
    }

    /// Gives the last opened element a colour: light grey for 0, and a different one for each
    /// number from 1 to 64.
    // open: what is written.
    pub fn colour(&mut self, attribute: Attribute, number: usize) {
        if number == 0 {
            self.attribute(attribute, "rgb(232,232,232)");
            return;
        }
        // A shade is 0 to 63; its three digits in base 4 are the levels 20, 80, 140 and 200.
        let shade = (39 * (number % 64) + 61) % 64;
        let red = 20 + 60 * (shade % 4);
        let green = 20 + 60 * (shade / 4 % 4);
        let blue = 20 + 60 * (shade / 16 % 4);
        self.attribute(attribute, format_args!("rgb({red},{green},{blue})"));
    }
}
