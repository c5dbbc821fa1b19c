//! Markup that is written element by element: pictures in SVG 1.1, which are well-formed XML, and
//! the content of pages in HTML. A text is data in it, whatever it is.
#![tactic(auto)]

mod classes;
mod document;
mod labels;
mod names;
mod pieces;
mod xml;

pub use classes::Class;
pub use document::Document;
pub use names::{Attribute, Tag};
